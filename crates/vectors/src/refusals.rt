//! Refusals.

use crate::answer::Answer;
use model::{Refusal, RewriteFault};

/// The text of a refusal: its number, its name and its reason.
pub(crate) fn refusal(name: &str, out: &mut Answer) -> Result<(), Refusal> {
    out.add(&refusal_of(name)?);
    Ok(())
}

/// The refusal of a name.
fn refusal_of(name: &str) -> Result<Refusal, Refusal> {
    match name {
        "Quota" => Ok(Refusal::Quota),
        "Overlap" => Ok(Refusal::RewriteRefused(RewriteFault::Overlap)),
        "Accidental" => Ok(Refusal::RewriteRefused(RewriteFault::Accidental)),
        "Stopped" => Ok(Refusal::Stopped),
        _ => Err(Refusal::BadLine),
    }
}
