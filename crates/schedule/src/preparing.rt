//! Values that are made before a step.

ghost use Rattle.std.specs.Prelude.{◌≡◌, ◌<◌, ℕ, List, Some, length, true, IfOk, IfErr, IfSome, IfNone, OnOk};
ghost use Rattle.std.specs.Option.{option_copied};
ghost use Rattle.model.specs.declared.refusal.Refusal.TheVariants.{Memory};
ghost use Rattle.classes.specs.Admitting.{HasMade};
ghost use Rattle.classes.specs.declared.admissions.Admissions.{Admissions as AdmissionsValue};
ghost use Rattle.outputs.specs.declared.settlements.Settlements.{Settlements as SettlementsValue};
ghost use Rattle.repair.specs.Counting.{made_in, IsForStep};
ghost use Rattle.repair.specs.Prepared.{HasRepairedIf};
ghost use Rattle.repair.specs.declared.cache.Cache.{Cache as CacheValue};
ghost use Rattle.events.specs.Terms.{event_of, request_of};
ghost use Rattle.trust.specs.Naming.{place_of};
ghost use Rattle.handlers.specs.States.{HasPlace};
ghost use Rattle.schedule.specs.declared.work.Ready.{Ready as ReadyValue};
ghost use Rattle.schedule.specs.Standing.{world_of};
ghost use Rattle.schedule.specs.Preparing.{output_of, seen_by, HasPath, HasAdmissionFor, HasInput, HasOutcome, HasRepairedAll, IsPrepared, IsMade, IsPreparedAnywhere, hangs_on_state};

use crate::preparation::Preparation;
use crate::state::Core;
use crate::work::{Ready, Work};
use classes::{AdmissionInput, Admissions, path_of_text};
use endings::input_for_finish;
use events::{Event, Request};
use goals::plan_for_goal;
use handlers::{input_for_derivation, input_for_offer, plan_for_take};
use model::Refusal;
use nar::Tree;
use outputs::{Input, Settlements, Sources};
use records::Plan;
use repair::{Cache, served_closure_with};
use std::alloc::Global;

/// What an event needs to be made before a step, as far as a core has to tell it.
pub struct PrepareInput {
    /// What its output is settled by, if it has one that is.
    input: Option<Input>,
    /// What its derivation is admitted by, if it has one that is.
    admission: Option<AdmissionInput>,
    /// The plan of the closure that is taken, or that its goal is built from, if there is one.
    plan: Option<Plan>,
}

impl Drop for PrepareInput {
    fn drop(self) {
        let PrepareInput {
            input: _,
            admission: _,
            plan: _,
        } = self;
    }
}

/// Makes the path of a source, if it is to be added. The one error is memory.
fn prepare_source(alloc: Global, sources: &mut Sources, request: &Request) -> Result<(), Refusal>
    ensures path { OnOk result (HasPath (request_of request.now) sources.new) }
    ensures memory { IfErr result (λ why. why ≡ Memory) }
{
    if let Request::AddSource(name, tree) = request {
        let _path = sources.path_of(alloc, name, tree)?;
    }
    Ok(())
}

/// The tree that a request hands in as an output, if it does.
fn output_in(request: &Request) -> Option<&Tree>
    ensures { option_copied result ≡ output_of (request_of request.now) }
{
    match request {
        Request::Offer(_, tree) => Some(tree),
        Request::Finish(_, output) => output.tree(),
        _ => None,
    }
}

/// Settles the output of a request by an input, if there is one. The one error is memory.
fn prepare_output(
    alloc: Global,
    settlements: &mut Settlements,
    input: Option<Input>,
    request: &Request,
) -> Result<(), Refusal>
    ensures output { OnOk result (HasInput (request_of request.now) input settlements.new) }
    ensures memory { IfErr result (λ why. why ≡ Memory) }
{
    let Some(input) = input else {
        return Ok(());
    };
    let Some(tree) = output_in(request) else {
        return Ok(());
    };
    let _outcome = settlements.settle(alloc, input, tree)?;
    Ok(())
}

/// Admits a derivation by an input, if there is one. The one error is memory.
fn prepare_admission(
    alloc: Global,
    admissions: &mut Admissions,
    input: Option<AdmissionInput>,
) -> Result<(), Refusal>
    ensures made { OnOk result (HasMade admissions.new.admitted.items input) }
    ensures memory { IfErr result (λ why. why ≡ Memory) }
{
    let Some(input) = input else {
        return Ok(());
    };
    let path = path_of_text(alloc, input.derivation(), input.text().bytes())?;
    let _admitted = admissions.add(alloc, path, input)?;
    Ok(())
}

/// Repairs the records of a plan, if there is one. Those that were used last are taken from a cache that keeps
/// them, and it keeps what is repaired. The one error is memory.
fn prepare_repairs(
    alloc: Global,
    made: &mut Cache,
    used: &mut Cache,
    plan: Option<Plan>,
) -> Result<(), Refusal>
    requires { IsForStep made.old }
    ensures made { OnOk result (HasRepairedIf plan (made_in made.new.made)) }
    ensures memory { IfErr result (λ why. why ≡ Memory) }
{
    let Some(plan) = plan else {
        return Ok(());
    };
    made.exchange_kept(used);
    let served = served_closure_with(alloc, &plan, made);
    made.exchange_kept(used);
    match served {
        Err(Refusal::Memory) => Err(Refusal::Memory),
        _ => Ok(()),
    }
}

/// Whether what a request needs to be made hangs on what there is.
fn hangs_on_state(request: &Request) -> bool
    ensures { result ≡ hangs_on_state (request_of request.now) }
{
    matches!(
        request,
        Request::AddDerivation(_)
            | Request::Offer(_, _)
            | Request::Take(_)
            | Request::Plan(_)
            | Request::Finish(_, _)
    )
}

impl Ready {
    /// Makes the values that an event needs before a step, if they hang on nothing that there is: the path of a
    /// source, or none. There are none where a core has to tell what is needed, by [`Core::need`].
    ///
    /// # Errors
    ///
    /// - `Memory` only where memory was refused.
    #[tactic(auto, using(crate::proofs::PreparingLemmas::prepared_anywhere))]
    pub fn anywhere(alloc: Global, event: &Event) -> Result<Option<Ready>, Refusal>
        ensures made { IfOk result (λ made. IfSome made (IsPreparedAnywhere (event_of event.now))) }
        ensures none { IfOk result (λ made. IfNone made (
            hangs_on_state (event_of event.now).request ≡ true)) }
        ensures memory { IfErr result (λ why. why ≡ Memory) }
    {
        if hangs_on_state(&event.request) {
            return Ok(None);
        }
        let mut work = Work::none(alloc);
        prepare_source(alloc, &mut work.sources, &event.request)?;
        Ok(Some(Ready::of(work)))
    }
}

impl PrepareInput {
    /// Makes the values that the event needs. That takes long: the path of a source, a derivation with its class,
    /// and what comes of a tree that is offered or built, are hashed, and records of a closure are repaired. Those
    /// that were used last are taken from the cache, where it has them, and it keeps what is repaired; whatever it
    /// has, the values are the same.
    ///
    /// # Errors
    ///
    /// - `Memory` only where memory was refused.
    pub fn make(self, alloc: Global, event: &Event, used: &mut Cache) -> Result<Ready, Refusal>
        ensures made { IfOk result (IsMade self (event_of event.now).request) }
        ensures memory { IfErr result (λ why. why ≡ Memory) }
    {
        let PrepareInput {
            input,
            admission,
            plan,
        } = self;
        let mut work = Work::none(alloc);
        prepare_source(alloc, &mut work.sources, &event.request)?;
        prepare_admission(alloc, &mut work.admissions, admission)?;
        prepare_output(alloc, &mut work.settlements, input, &event.request)?;
        prepare_repairs(alloc, &mut work.cache, used, plan)?;
        Ok(Ready::of(work))
    }
}

impl Core {
    /// What the output is settled by that the user at a place offers, or ends his job with. The one error is
    /// memory.
    fn input_for(
        &self,
        alloc: Global,
        place: usize,
        request: &Request,
    ) -> Result<Option<Input>, Refusal>
        requires of_run { HasPlace self.now.state place }
        ensures needed { (user : List ℕ) → place_of self.now.state.users user ≡ Some place
            → IfOk result (λ input. (settlements : SettlementsValue)
            → HasInput (request_of request.now) input settlements
            → HasOutcome (world_of self.now user) user (request_of request.now) settlements) }
        ensures memory { IfErr result (λ why. why ≡ Memory) }
    {
        match request {
            Request::Offer(path, _) => input_for_offer(alloc, &self.state.desks[place], path),
            Request::Finish(number, _) => input_for_finish(alloc, &self.state, place, *number),
            _ => Ok(None),
        }
    }

    /// What the derivation is admitted by that the user at a place adds. The one error is memory.
    fn admission_for(
        &self,
        alloc: Global,
        place: usize,
        preparation: Preparation<'_>,
    ) -> Result<Option<AdmissionInput>, Refusal>
        requires of_run { HasPlace self.now.state place }
        ensures needed { (user : List ℕ) → place_of self.now.state.users user ≡ Some place
            → IfOk result (λ input. (admissions : AdmissionsValue)
            → HasMade admissions.admitted.items input
            → HasAdmissionFor (world_of self.now user)
            (event_of preparation.entry.event.now).request admissions) }
        ensures memory { IfErr result (λ why. why ≡ Memory) }
    {
        let Preparation { event, derivation } = preparation;
        let Request::AddDerivation(text) = &event.request else {
            return Ok(None);
        };
        let Some(derivation) = derivation else {
            return Ok(None);
        };
        input_for_derivation(alloc, &self.state.desks[place], text, derivation)
    }

    /// The plan of the closure that the user at a place takes, or that his goal is built from, if there is one. The
    /// one error is memory.
    fn plan_for(
        &self,
        alloc: Global,
        place: usize,
        request: &Request,
    ) -> Result<Option<Plan>, Refusal>
        requires of_run { HasPlace self.now.state place }
        ensures needed { (user : List ℕ) → place_of self.now.state.users user ≡ Some place
            → IfOk result (λ plan. (cache : CacheValue) → HasRepairedIf plan (made_in cache.made)
            → HasRepairedAll (seen_by self.now user) (request_of request.now) cache) }
        ensures memory { IfErr result (λ why. why ≡ Memory) }
    {
        match request {
            Request::Take(class) => plan_for_take(alloc, &self.state, place, class),
            Request::Plan(number) => plan_for_goal(alloc, &self.state, place, *number),
            _ => Ok(None),
        }
    }

    /// What an event needs to be made before a step. Whatever [`PrepareInput::make`] makes of that are the values that
    /// a step by this core needs. The core stays as it is, and may have taken other events when they are used.
    ///
    /// # Errors
    ///
    /// - `Memory` only where memory was refused.
    pub fn need(&self, alloc: Global, preparation: Preparation<'_>) -> Result<PrepareInput, Refusal>
        ensures need { IfOk result (λ need. (ready : ReadyValue)
            → IsMade need (event_of preparation.entry.event.now).request ready
            → IsPrepared self.now (event_of preparation.entry.event.now) ready) }
        ensures memory { IfErr result (λ why. why ≡ Memory) }
    {
        let event = preparation.event;
        let Some(place) = self.state.users.place_of(&event.actor) else {
            return Ok(PrepareInput {
                input: None,
                admission: None,
                plan: None,
            });
        };
        let input = self.input_for(alloc, place, &event.request)?;
        let plan = self.plan_for(alloc, place, &event.request)?;
        let admission = self.admission_for(alloc, place, preparation)?;
        Ok(PrepareInput {
            input,
            admission,
            plan,
        })
    }

    /// Makes values that a step needs for an event, so that [`Core::step_ready`] need not make them: the path
    /// of a source, a derivation with its class, what comes of a tree that is offered, what comes of the output of a job
    /// for the goal that leads it, and the records that are repaired for a closure that is taken or that a goal is
    /// built from. The core stays as it is, and may have taken other events when the values are used.
    ///
    /// # Errors
    ///
    /// - `Memory` only where memory was refused.
    pub fn prepare(&self, alloc: Global, event: &Event) -> Result<Ready, Refusal>
        ensures prepared { IfOk result (IsPrepared self.now (event_of event.now)) }
        ensures memory { IfErr result (λ why. why ≡ Memory) }
    {
        let preparation = Preparation::new(alloc, event)?;
        let need = self.need(alloc, preparation)?;
        need.make(alloc, event, &mut Cache::none())
    }
}
