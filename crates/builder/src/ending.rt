//! What replies mean to a worker, and how a job ends.

ghost use Rattle.std.specs.Prelude.{◌≡◌, Some, IfOk, IfErr, OnErr};
ghost use Rattle.model.specs.declared.refusal.Refusal.TheVariants.{Memory};
ghost use Rattle.builder.specs.Outputs.{bytes_of};
ghost use Rattle.builder.specs.Working.{TakesMemory, ending, met_in, met_by, is_planned, leads_own};

use crate::runner::RunFault;
use events::{Output, Reply, Request, Status};
use model::Refusal;
use trust::User;

/// What ends the job that the goal of a number leads, of which a runner gave this.
///
/// # Errors
///
/// - `Memory` only where memory was refused, to the runner or, for an output, here.
pub(crate) fn ending(number: u16, given: Result<Vec<u8>, RunFault>) -> Result<Request, Refusal>
    ensures request { IfOk result (λ request. ending number (bytes_of given) ≡ Some request) }
    ensures memory { IfErr result (λ why. why ≡ Memory) }
    ensures takes { OnErr result (TakesMemory (ending number (bytes_of given))) }
{
    match given {
        Ok(bytes) => Ok(Request::Finish(number, Output::new(bytes)?)),
        Err(RunFault::Status(status)) => Ok(Request::Fail(number, status.get())),
        Err(RunFault::Device) => Ok(Request::Fail(number, 0)),
        Err(RunFault::Memory) => Err(Refusal::Memory),
    }
}

/// What a worker meets in a refusal: 90 or 92, and nothing in any other.
pub(crate) fn met_in(why: Refusal) -> Option<Refusal>
    ensures { result ≡ met_in why }
{
    match why {
        Refusal::Memory => Some(Refusal::Memory),
        Refusal::Stopped => Some(Refusal::Stopped),
        _ => None,
    }
}

/// What a worker meets in a reply.
pub(crate) fn met_by(reply: &Reply) -> Option<Refusal>
    ensures { result ≡ met_by reply.now }
{
    match reply {
        Reply::Refused(why) => met_in(*why),
        _ => None,
    }
}

/// Whether a reply says that the goal is planned.
pub(crate) fn is_planned(reply: &Reply) -> bool
    ensures { result ≡ is_planned reply.now }
{
    match reply {
        Reply::Status(Status::Planned) => true,
        _ => false,
    }
}

/// Whether a reply says that the job which is built is led by the user's goal of that number.
pub(crate) fn leads_own(user: &User, number: u16, reply: &Reply) -> bool
    ensures { result ≡ leads_own user.now number reply.now }
{
    match reply {
        Reply::Status(Status::Building(job)) => job.is_led_by(user, number),
        _ => false,
    }
}
