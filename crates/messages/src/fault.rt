//! What the program says when it cannot go on, and its exit statuses.

ghost use Rattle.std.specs.Prelude.{◌≡◌};
ghost use Rattle.messages.specs.Ends.{fault_of_end, status_of_end};

use model::Refusal;
use std::io::Eprint;
use thiserror::Error;

/// The exit status where every line was answered.
pub const ANSWERED: u8 = 0;
/// The exit status of a fault in the command line, of a user whom nothing names, and where help or the
/// version is asked for.
pub const COMMAND_LINE_FAULT: u8 = 2;
/// The exit status where the file or random bytes cannot be read, or standard output not written.
pub const CANNOT_READ_OR_WRITE: u8 = 3;
/// The exit status where memory was refused.
pub const OUT_OF_MEMORY: u8 = 4;
/// The exit status where the list of users is ill-formed.
pub const BAD_USERS: u8 = 5;

/// Why the program ended before its input did, or what it could not show, as it says on standard error.
#[derive(Debug, Drop, Error)]
pub enum Fault<'a> {
    /// A file could not be opened or read to its end.
    #[error("intstore: cannot read {0}")]
    CannotRead(&'a str),
    /// Standard output did not take all that was written.
    #[error("intstore: cannot write")]
    CannotWrite,
    /// No answered line of users names the user.
    #[error("intstore: unknown user")]
    UnknownUser,
    /// A word of the command line, or a file's name among them, is no UTF-8.
    #[error("intstore: a word of the command line is no UTF-8")]
    WordNotUtf8,
    /// The machine gave no random bytes.
    #[error("intstore: cannot read random bytes")]
    NoRandomBytes,
    /// A folder of a run is missing, or is no folder.
    #[error("intstore: cannot use the folder {0}")]
    NoFolder(&'a str),
    /// A program through which builders are to be started cannot be executed.
    #[error("intstore: cannot start the launcher {0}")]
    NoLauncher(&'a str),
    /// Lines of the file whose events are struck were refused with 25: so many, and the first of them.
    #[error("intstore: lines refused 25: {0}, the first is line {1}")]
    BadLines(usize, usize),
    /// Memory was refused where no event could be answered for it.
    #[error("intstore: out of memory")]
    OutOfMemory,
}

/// The exit status of a run that ended so.
pub fn status_of(ended: &Result<(), Refusal>) -> u8
    ensures { result ≡ status_of_end ended.now }
{
    match ended {
        Ok(()) => ANSWERED,
        Err(Refusal::BadUsers) => BAD_USERS,
        Err(Refusal::UnknownUser) => COMMAND_LINE_FAULT,
        Err(Refusal::InputFault | Refusal::OutputFault) => CANNOT_READ_OR_WRITE,
        Err(_) => OUT_OF_MEMORY,
    }
}

/// What is said of a run of that file that ended so, if anything: the reply to a refused line of users
/// says it all.
pub fn fault_of<'a>(ended: &Result<(), Refusal>, file: &'a str) -> Option<Fault<'a>>
    ensures { result ≡ fault_of_end ended.now file.entry }
{
    match ended {
        Ok(()) | Err(Refusal::BadUsers) => None,
        Err(Refusal::UnknownUser) => Some(Fault::UnknownUser),
        Err(Refusal::InputFault) => Some(Fault::CannotRead(file)),
        Err(Refusal::OutputFault) => Some(Fault::CannotWrite),
        Err(_) => Some(Fault::OutOfMemory),
    }
}

/// Says on standard error how a run of that file ended, if there is anything to say, and gives the exit
/// status. What cannot be said is let go: the status stays.
pub fn report(rt: &impl Eprint, ended: &Result<(), Refusal>, file: &str) -> u8
    ensures { result ≡ status_of_end ended.now }
{
    if let Some(fault) = fault_of(ended, file) {
        let _ = rt.eprintln(fault);
    }
    status_of(ended)
}
