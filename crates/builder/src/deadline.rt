//! Until when a builder is waited for.

use std::io;
use std::time::{Clock, Duration, Instant};

/// How many seconds behind its limit what keeps the output of a builder open is waited for. The builder has been killed
/// then, with its process group.
const GRACE: u64 = 5;

/// Until when an output is read, if there is a limit.
#[derive(Clone, Copy)]
pub(crate) struct Deadline(Option<Instant>);

impl Deadline {
    /// That of a builder which starts now and may run for so many seconds, if there is a limit.
    pub(crate) fn of(clock: &impl Clock, limit: Option<u64>) -> io::Result<Deadline> {
        let Some(seconds) = limit else {
            return Ok(Deadline(None));
        };
        let longest = Duration::from_secs(seconds.saturating_add(GRACE));
        Ok(Deadline(Instant::now(clock)?.checked_add(longest)))
    }

    /// Whether there is one.
    pub(crate) fn is_set(self) -> bool {
        self.0.is_some()
    }

    /// How many milliseconds are left, as `poll` takes them: 0 where it has passed, and -1 where there is none.
    pub(crate) fn left(self, clock: &impl Clock) -> io::Result<i32> {
        match self.0 {
            Some(end) => {
                let left = end.duration_since(Instant::now(clock)?);
                Ok(i32::try_from(left.as_millis()).unwrap_or(i32::MAX))
            }
            None => Ok(-1),
        }
    }
}
