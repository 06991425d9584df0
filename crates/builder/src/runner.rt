//! What builds.

ghost use Rattle.std.specs.Prelude.{◌≡◌, ℕ, List, Result, Err};
ghost use Rattle.model.specs.Goals.{Running};
ghost use Rattle.builder.specs.declared.runner.RunFault.{RunFault};
ghost use Rattle.builder.specs.declared.runner.RunFault.TheVariants.{Device};
ghost use Rattle.builder.specs.Outputs.{bytes_of, HasFailed};

use events::Reply;
use jobs::RunningJob;
use std::alloc::Global;
use std::num::NonZeroU8;

/// Why a builder gave no output.
#[derive(Debug, Drop)]
pub enum RunFault {
    /// It ended with this exit status, 1 to 255.
    Status(NonZeroU8),
    /// It had no exit status, or what it runs on failed.
    Device,
    /// Memory was refused.
    Memory,
}

/// What builds.
pub trait Runner {
    /// Relates the runner before a run, the job that it builds, what it gives, and the runner after.
    ghost gives: { Self → Running → Result (List ℕ) RunFault → Self → Type 0 };

    /// How often what it runs on failed, as far as the number goes.
    ghost failed: { Self → ℕ };

    /// Builds a job. The output is what the builder wrote.
    ///
    /// # Errors
    ///
    /// - `Status` where the builder ended with an exit status other than 0.
    /// - `Device` only where what it runs on failed during the call, by its count.
    /// - `Memory` only where memory was refused.
    fn run(&mut self, alloc: Global, job: &RunningJob) -> Result<Vec<u8>, RunFault>
        ensures gives { gives self.old job.now (bytes_of result) self.new }
        ensures device { bytes_of result ≡ Err Device → HasFailed (failed self.old) (failed self.new) };

    /// Is told what the end of the job that it ran last was answered, which is how far the goal is that leads it.
    fn tell(&self, _reply: &Reply) {}

    /// How often what it runs on failed. At its greatest number the count stays there.
    fn failures(&self) -> u64
        ensures { result ≡ failed self.now };
}
