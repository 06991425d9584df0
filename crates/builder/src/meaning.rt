//! What a process that has ended means.

ghost use Rattle.std.specs.Prelude.{◌≡◌, pos, option_map};
ghost use Rattle.std.specs.Process.{exit_code};
ghost use Rattle.builder.specs.Meaning.{IsGone, Means, MeansStatus, output_of};

use crate::fault::Fault;
use std::io;
use std::io::ErrorKind;
use std::num::NonZeroU8;
use std::process::ExitStatus;

/// Whether nothing has a name of which removing it gave this.
pub(crate) fn is_gone(removed: io::Result<()>) -> bool
    ensures { IsGone removed result }
{
    match removed {
        Ok(()) => true,
        Err(error) => error.kind() == ErrorKind::NotFound,
    }
}

/// The number that a process ended with, if it did so itself.
fn code_of(status: ExitStatus) -> Option<u8>
    ensures { option_map (λ code. pos code) result ≡ exit_code status }
{
    Some(status.code()? as u8)
}

/// What it means of a process that wrote this to have ended so.
fn meaning_of_status(output: Vec<u8>, status: ExitStatus) -> Result<Vec<u8>, Fault>
    ensures { MeansStatus output.items status (exit_code status) (output_of result) }
{
    let Some(code) = code_of(status) else {
        return Err(Fault::Killed(status));
    };
    match NonZeroU8::new(code) {
        Some(code) => Err(Fault::Status(code)),
        None => Ok(output),
    }
}

/// What it means that reading the output of a process gave this, and waiting for it that.
pub(crate) fn meaning(
    read: Result<Vec<u8>, Fault>,
    ended: io::Result<ExitStatus>,
) -> Result<Vec<u8>, Fault>
    ensures { Means (output_of read) ended (output_of result) }
{
    match (read, ended) {
        (Ok(output), Ok(status)) => meaning_of_status(output, status),
        (Err(unread), _) => Err(unread),
        (Ok(_), Err(_)) => Err(Fault::EndNotLearnt),
    }
}
