//! One goal.

ghost use Rattle.std.specs.Prelude.{◌≡◌, None, Some, IfNone, IfSome, option_copied};
ghost use Rattle.model.specs.Worlds.{Resolved as ResolvedValue};
ghost use Rattle.model.specs.Goals.{in_status, new_goal, job_in};
ghost use Rattle.events.specs.Statuses.{status_of};
ghost use Rattle.jobs.specs.Statuses.{path_in, is_alike, planned_with};
ghost use Rattle.jobs.specs.Joining.{same_as};
ghost use Rattle.jobs.specs.Shared.{IsLike};

use crate::same::same_resolved;
use crate::shared::{equal_but_trees, equal_trees};
use events::{Job, Status};
use records::Resolved;
use std::marker::Model;
use storepath::StorePath;

/// One request to build.
pub struct Goal {
    derivation: StorePath,
    resolved: Option<Resolved>,
    status: Status,
}

impl Drop for Goal {
    fn drop(self) {
        let Goal {
            derivation: _,
            resolved: _,
            status: _,
        } = self;
    }
}

impl Model for Goal {
    ghost use Rattle.model.specs.Worlds.{Goal as GoalValue};
    ghost use Rattle.jobs.specs.Codes.{goal_code};

    ghost Value = { GoalValue };

    ghost coded = { goal_code };

    ghost use Rattle.events.specs.Statuses.{status_of};

    ghost view = { λ g.
        record { derivation = g.derivation; resolved = g.resolved; status = status_of g.status } };
}

impl Goal {
    /// A goal that is to be planned.
    pub(crate) fn new(derivation: StorePath) -> Goal
        ensures { result ≡ new_goal derivation }
    {
        Goal {
            derivation,
            resolved: None,
            status: Status::Waiting,
        }
    }

    /// The path of the derivation's file.
    pub fn derivation(&self) -> &StorePath
        ensures { result.now ≡ self.now.derivation }
    {
        &self.derivation
    }

    /// What it is built from, since it was planned.
    pub fn resolved(&self) -> Option<&Resolved>
        ensures { option_copied result ≡ self.now.resolved }
    {
        self.resolved.as_ref()
    }

    /// Whether it is built from that: one text, under one path, from one closure.
    pub fn is_built_from(&self, resolved: &Resolved) -> bool
        ensures { result ≡ same_as resolved.now self.now.resolved }
    {
        match &self.resolved {
            Some(own) => same_resolved(own, resolved),
            None => false,
        }
    }

    /// What it is built from, if that is equal to `resolved` but for the trees, and the goal is planned,
    /// or built in a job, or the trees are equal too. Trees are compared only where it is neither.
    pub(crate) fn built_like(&self, resolved: &Resolved) -> Option<&Resolved>
        ensures found { IfSome (option_copied result) (IsLike self.now resolved.now) }
        ensures none { IfNone result ((q : ResolvedValue) → IsLike self.now resolved.now q → ⊥) }
    {
        let own = self.resolved.as_ref()?;
        let is_like = equal_but_trees(own, resolved)
            && (self.status.is_planned() || equal_trees(own.closure(), resolved.closure()));
        if is_like { Some(own) } else { None }
    }

    /// How far it is.
    pub fn status(&self) -> &Status
        ensures { status_of result.now ≡ self.now.status }
    {
        &self.status
    }

    /// The job in which it is built.
    pub fn job(&self) -> Option<&Job>
        ensures { option_copied result ≡ job_in self.now.status }
    {
        match &self.status {
            Status::Building(job) => Some(job),
            _ => None,
        }
    }

    /// The path by which it is done.
    pub(crate) fn done_path(&self) -> Option<&StorePath>
        ensures { option_copied result ≡ path_in self.now.status }
    {
        match &self.status {
            Status::Done(path) => Some(path),
            _ => None,
        }
    }

    /// Whether both are done and came to the same: they are of one derivation, done by one path, and
    /// built from the same.
    pub(crate) fn is_alike(&self, other: &Goal) -> bool
        ensures { result ≡ is_alike self.now other.now }
    {
        match (self.done_path(), other.done_path(), other.resolved()) {
            (Some(path), Some(other_path), Some(resolved)) => {
                self.derivation == other.derivation
                    && path == other_path
                    && self.is_built_from(resolved)
            }
            _ => false,
        }
    }

    /// It gets another state. What it is built from is left.
    pub(crate) fn set_status(&mut self, status: Status)
        ensures { self.new ≡ in_status (status_of status) self.old }
    {
        self.status = status;
    }

    /// It is planned, and from now on built from that.
    pub(crate) fn keep(&mut self, resolved: Resolved)
        ensures { self.new ≡ planned_with resolved self.old }
    {
        self.resolved = Some(resolved);
        self.status = Status::Planned;
    }
}
