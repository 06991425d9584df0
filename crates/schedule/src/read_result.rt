//! What is found for a query, and told without the core.

ghost use Rattle.std.specs.Prelude.{◌≡◌};
ghost use Rattle.schedule.specs.ReadResults.{IsServedFrom};
ghost use Rattle.schedule.specs.declared.read_result.ReadResult.TheVariants.{Planned};

use events::Reply;
use handlers::serve_plan;
use model::Refusal;
use records::Plan;
use repair::Cache;
use std::alloc::Global;

/// What a core finds for a query. What takes long of a closure, its repairs, is left to [`ReadResult::serve`],
/// which needs no core.
#[derive(Drop)]
pub enum ReadResult {
    /// The reply.
    Told(Reply),
    /// What the closure needs that is asked for.
    Planned(Plan),
}

/// What is told of a plan that is served.
fn serve_once(alloc: Global, plan: &Plan, cache: &mut Cache) -> Reply
    ensures { IsServedFrom (Planned plan.now) result }
{
    match serve_plan(alloc, plan, cache) {
        Ok(reply) => reply,
        Err(why) => Reply::Refused(why),
    }
}

impl ReadResult {
    /// The reply. Records of a closure that are to be repaired are taken from the cache, where it has them,
    /// and kept in it; whatever it has, the reply is the same. Where memory is refused, the cache is emptied, and
    /// the closure is served once more.
    pub fn serve(self, alloc: Global, cache: &mut Cache) -> Reply
        ensures { IsServedFrom self result }
    {
        let plan = match self {
            ReadResult::Told(reply) => return reply,
            ReadResult::Planned(plan) => plan,
        };
        let reply = serve_once(alloc, &plan, cache);
        if !matches!(&reply, Reply::Refused(Refusal::Memory)) {
            return reply;
        }
        cache.empty();
        serve_once(alloc, &plan, cache)
    }
}
