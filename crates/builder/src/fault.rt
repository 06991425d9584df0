//! Why a build gave no output.

ghost use Rattle.std.specs.Prelude.{◌≡◌};
ghost use Rattle.builder.specs.Outputs.{bytes_of};
ghost use Rattle.builder.specs.Meaning.{fault_in, output_of, run_fault_of, told};

use crate::log::Logged;
use crate::runner::RunFault;
use std::fmt;
use std::fmt::{Display, Formatter};
use std::num::NonZeroU8;
use std::os::unix::process::ExitStatusExt;
use std::process::ExitStatus;

/// Why a build gave no output.
#[derive(Clone, Copy, Debug, PartialEq, Eq)]
pub enum Fault {
    /// The builder ended with this exit status, 1 to 255.
    Status(NonZeroU8),
    /// The builder ended so, with no exit status: a signal killed it.
    Killed(ExitStatus),
    /// The builder was not started, or nothing can be started for the job.
    NotStarted,
    /// The file of inputs was not made or not written, or it stayed.
    InputsNotWritten,
    /// The log was not made, so that the builder was not started.
    LogNotMade,
    /// What the builder wrote was not read.
    OutputNotRead,
    /// How the builder ended was not learnt.
    EndNotLearnt,
    /// Memory was refused before anything was done outside.
    Memory,
}

impl Fault {
    /// What it is for the job: each one but an exit status and want of memory is of a device.
    pub(crate) fn run_fault(self) -> RunFault
        ensures { result ≡ run_fault_of self }
    {
        match self {
            Fault::Status(status) => RunFault::Status(status),
            Fault::Memory => RunFault::Memory,
            Fault::Killed(_)
            | Fault::NotStarted
            | Fault::InputsNotWritten
            | Fault::LogNotMade
            | Fault::OutputNotRead
            | Fault::EndNotLearnt => RunFault::Device,
        }
    }
}

/// In a few words, with the number of the status or of the signal.
impl Display for Fault {
    fn fmt<W: fmt::Write>(&self, f: &mut Formatter<W>) -> fmt::Result {
        match self {
            Fault::Status(status) => write!(f, "status {status}"),
            Fault::Killed(ended) => match ended.signal() {
                Some(signal) => write!(f, "killed by signal {signal}"),
                None => write!(f, "{ended}"),
            },
            Fault::NotStarted => f.write_str("not started"),
            Fault::InputsNotWritten => f.write_str("inputs not written"),
            Fault::LogNotMade => f.write_str("log not made"),
            Fault::OutputNotRead => f.write_str("output not read"),
            Fault::EndNotLearnt => f.write_str("end not learnt"),
            Fault::Memory => f.write_str("out of memory"),
        }
    }
}

/// What says why a job that it built gave no output.
pub trait Explains {
    /// Why the job that was built last gave no output, if it gave none.
    fn fault(&self) -> Option<Fault>;

    /// The log of the job that was built last, if its builder was started with one.
    fn log(&self) -> Option<&Logged>;
}

/// Why a build gave no output, if it gave none.
pub(crate) fn fault_in(built: &Result<Vec<u8>, Fault>) -> Option<Fault>
    ensures { result ≡ fault_in (output_of built.now) }
{
    match built {
        Ok(_) => None,
        Err(fault) => Some(*fault),
    }
}

/// What a runner tells of a build.
pub(crate) fn told(built: Result<Vec<u8>, Fault>) -> Result<Vec<u8>, RunFault>
    ensures { bytes_of result ≡ told (output_of built) }
{
    match built {
        Ok(output) => Ok(output),
        Err(fault) => Err(fault.run_fault()),
    }
}
