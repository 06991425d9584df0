//! What is built for several goals at once.

ghost use Rattle.std.specs.Prelude.{◌≡◌};
ghost use Rattle.model.specs.Archives.{bytes_before};
ghost use Rattle.model.specs.Goals.{job_before, same_job};

use std::alloc::AllocError;
use std::hash::{Hash, Hasher};
use std::marker::Model;
use trust::User;

/// What is built for several goals at once, by the goal that leads them: its user, and its number.
#[derive(Debug)]
pub struct Job {
    leader: User,
    number: u16,
}

/// A goal: its user, and its number, as they name the job that it leads or would lead.
pub type GoalId = Job;

impl Drop for Job {
    fn drop(self) {
        let Job {
            leader: _,
            number: _,
        } = self;
    }
}

impl Model for Job {
    ghost use Rattle.model.specs.Worlds.{Job as JobValue};
    ghost use Rattle.events.specs.Codes.{job_code};

    ghost Value = { JobValue };

    ghost coded = { job_code };

    ghost view = { λ j. record { leader = j.leader; number = j.number } };
}

// Whether one text stands before another in the order of bytes.
fn comes_before(first: &[u8], second: &[u8]) -> bool
    ensures { result ≡ bytes_before first.now second.now }
{
    first.cmp(second).is_lt()
}

impl Job {
    /// The job that a user's goal of that number leads.
    pub fn new(leader: User, number: u16) -> Job
        ensures { result ≡ record { leader = leader; number = number } }
    {
        Job { leader, number }
    }

    /// The user of the goal that leads it.
    pub fn leader(&self) -> &User
        ensures { result.now ≡ self.now.leader }
    {
        &self.leader
    }

    /// The number of the goal that leads it.
    pub fn number(&self) -> u16
        ensures { result ≡ self.now.number }
    {
        self.number
    }

    /// Whether it is led by a user's goal of that number.
    pub fn is_led_by(&self, user: &User, number: u16) -> bool
        ensures { result ≡ same_job self.now (record { leader = user.now; number = number }) }
    {
        self.leader == *user && self.number == number
    }

    /// Whether it stands before another: by the names of the leaders, then by number.
    pub fn is_before(&self, other: &Job) -> bool
        ensures { result ≡ job_before self.now other.now }
    {
        let leader = self.leader.bytes();
        let other_leader = other.leader.bytes();
        comes_before(leader, other_leader)
            || (!comes_before(other_leader, leader) && self.number < other.number)
    }
}

/// Jobs are the same where their leaders and numbers are.
impl PartialEq for Job {
    ghost use Rattle.std.proofs.Common.{rules};
    ghost use Rattle.std.specs.Cmp.Rules.{comparing};
    ghost use Rattle.model.specs.Goals.{same_job};

    ghost eq = { same_job };

    ghost laws = { Prim.search (comparing, rules) };

    fn eq(&self, other: &Job) -> bool {
        self.leader == other.leader && self.number == other.number
    }
}

impl Eq for Job {
    ghost use Rattle.std.proofs.Common.{rules};
    ghost use Rattle.std.specs.Cmp.Rules.{comparing};

    ghost laws = { Prim.search (comparing, rules) };
}

/// Jobs that are the same have one hash.
impl Hash for Job {
    ghost use Rattle.std.proofs.Common.{rules};
    ghost use Rattle.std.specs.Cmp.Rules.{hashing};
    ghost use Rattle.std.specs.Hash as fed;
    ghost use Rattle.std.specs.Prelude.{◌∷◌};

    ghost hash_input = { λ j. j.leader ∷ fed.u16 j.number };

    ghost respects_eq = { Prim.search (hashing, rules) };

    fn hash<H: Hasher>(&self, state: &mut H) {
        state.write(self.leader.bytes());
        self.number.hash(state);
    }
}

/// The copy is equal, and shares the name. It takes no memory; it fails only where there are
/// 2^63 - 1 copies of it.
impl Clone for Job {
    ghost use Rattle.std.specs.Prelude.{◌≡◌};

    ghost is_clone = { λ job copy. copy ≡ job };

    fn clone(&self) -> Result<Job, AllocError> {
        let leader = self.leader.clone()?;
        Ok(Job {
            leader,
            number: self.number,
        })
    }
}
