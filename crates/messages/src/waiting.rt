//! Goals that are left waiting when the files of a run have ended, and what each of them waits for.

use crate::heard::{Asker, Goal, Heard};
use crate::inputs::Lack;
use crate::narrator::text_of;
use history::Row;
use indexmap::IndexMap;
use model::Refusal;
use std::alloc::Global;
use std::fmt;
use std::fmt::{Display, Formatter};
use std::hash::RandomState;
use std::io::Eprint;
use std::sync::Arc;
use storepath::StorePath;
use trust::{User, UserSet};

/// What waits: the goals of a derivation of one user.
#[derive(Drop)]
struct Wanted {
    /// The name of the derivation.
    name: Vec<u8>,
    /// The inputs that are not there for that user.
    lacks: Vec<Lack>,
}

/// A goal that is left waiting, in words, and the input that it lacks, if it is one.
#[derive(Drop)]
struct Left<'a> {
    user: &'a User,
    number: usize,
    name: &'a [u8],
    lack: Option<&'a Lack>,
}

impl Display for Left<'_> {
    fn fmt<W: fmt::Write>(&self, f: &mut Formatter<W>) -> fmt::Result {
        let user = text_of(self.user.bytes());
        let number = self.number;
        let name = text_of(self.name);
        write!(f, "{user} {number} {name} waits")?;
        match self.lack {
            Some(lack) => {
                let class = text_of(lack.class.bytes());
                let absence = lack.absence;
                write!(f, " for {class}: {absence}")
            }
            None => Ok(()),
        }
    }
}

/// Says what the goal of a number waits for: in a line for each input that it lacks, or in one where it lacks none.
fn tell_goal<'a>(host: &impl Eprint, user: &'a User, number: usize, wanted: &'a Wanted) {
    let name = wanted.name.as_slice();
    let lacks = wanted.lacks.as_slice();
    if lacks.is_empty() {
        let lack = None;
        let left = Left {
            user,
            number,
            name,
            lack,
        };
        let _ = eprintln!(host; "intstore: {left}");
    }
    for lack in lacks {
        let lack = Some(lack);
        let left = Left {
            user,
            number,
            name,
            lack,
        };
        let _ = eprintln!(host; "intstore: {left}");
    }
}

/// The goals of one user that are left waiting, as they are told: whom he reaches, and what was found already of the
/// derivations at some paths.
#[derive(Drop)]
struct Teller<'a, H> {
    host: &'a H,
    alloc: Global,
    heard: &'a Heard,
    reached: UserSet,
    found: IndexMap<StorePath, Wanted, RandomState>,
}

impl<H: Eprint> Teller<'_, H> {
    /// Finds what the goals of the derivation at a path wait for, if that was not found yet.
    fn find(&mut self, path: &StorePath) -> Result<(), Refusal> {
        if self.found.contains_key(path) {
            return Ok(());
        }
        let inputs = self.heard.inputs();
        let Some(derived) = inputs.at(path) else {
            return Ok(());
        };
        let wanted = Wanted {
            name: derived.name.as_slice().to_vec(self.alloc)?,
            lacks: inputs.lacks_of(derived, self.reached)?,
        };
        let _none = self.found.insert(path.clone()?, wanted)?;
        Ok(())
    }

    /// Says what the goal of a number waits for, if it waits.
    fn tell_if_waiting(&mut self, user: &User, number: usize, goal: &Goal) -> Result<(), Refusal> {
        if !goal.is_waiting(self.reached) {
            return Ok(());
        }
        self.find(goal.path())?;
        if let Some(wanted) = self.found.get(goal.path()) {
            tell_goal(self.host, user, number, wanted);
        }
        Ok(())
    }

    /// Says which goals of a user wait.
    fn tell_user(&mut self, asker: &Asker) -> Result<(), Refusal> {
        for (place, goal) in asker.goals.iter().enumerate() {
            self.tell_if_waiting(&asker.name, place.saturating_add(1), goal)?;
        }
        Ok(())
    }
}

/// Says which goals are left waiting by what was heard.
fn tell_heard<H: Eprint>(
    host: &H,
    alloc: Global,
    hashing: RandomState,
    heard: &Heard,
) -> Result<(), Refusal> {
    for (place, asker) in heard.askers().iter().enumerate() {
        let mut teller = Teller {
            host,
            alloc,
            heard,
            reached: heard.reach_of(place),
            found: IndexMap::with_hasher(alloc, hashing),
        };
        teller.tell_user(asker)?;
    }
    Ok(())
}

/// Says on standard error which goals are left waiting by the history of a run, and for which inputs. What there is no
/// memory for, and what cannot be said, is let go. It takes time that grows with the history and with what is said.
pub fn tell_waiting<H: Eprint>(host: &H, alloc: Global, hashing: RandomState, rows: &[Arc<Row>]) {
    if let Ok(heard) = Heard::new(alloc, hashing, rows) {
        let _ = tell_heard(host, alloc, hashing, &heard);
    }
}
