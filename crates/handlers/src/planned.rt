//! Plans that may be missing.

ghost use Rattle.std.specs.Prelude.{◌≡◌, ◌≢◌, IfOk, IfErr, IfSome, IfNone, Ok, Err};
ghost use Rattle.model.specs.declared.refusal.Refusal.{Refusal as RefusalValue};
ghost use Rattle.model.specs.declared.refusal.Refusal.TheVariants.{Memory};

use model::Refusal;
use records::Plan;

/// A plan, if there is one. The one error is memory.
pub fn plan_or_none(plan: Result<Plan, Refusal>) -> Result<Option<Plan>, Refusal>
    ensures some { IfOk result (λ found. IfSome found (λ p. plan ≡ Ok p)) }
    ensures none { IfOk result (λ found. IfNone found ((why : RefusalValue) × (plan ≡ Err why) × (why ≢ Memory))) }
    ensures memory { IfErr result (λ why. (why ≡ Memory) × (plan ≡ Err Memory)) }
{
    match plan {
        Ok(plan) => Ok(Some(plan)),
        Err(Refusal::Memory) => Err(Refusal::Memory),
        Err(_) => Ok(None),
    }
}
