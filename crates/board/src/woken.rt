//! Goals of a session that are to be looked at.

ghost use Rattle.std.specs.Prelude.{◌≡◌, ◌++◌, ◌∷◌, [], true, false, MatchOption, IfSome, IfNone};
ghost use Rattle.board.specs.Rows.{WokenView, may_stand, IsKeptIn, CoversWoken, CoversWokenBut, IsWokenAt, NoneWoken};

use crate::stage::Goal;
use std::alloc::Global;
use std::marker::Model;

/// Places of goals that may be woken. Where memory was refused to it, it stands for all goals.
pub struct Woken {
    places: Vec<usize>,
    is_all: bool,
}

impl Drop for Woken {
    fn drop(self) {
        let Woken {
            places: _,
            is_all: _,
        } = self;
    }
}

impl Model for Woken {
    ghost use Rattle.board.specs.Rows.{WokenView};

    ghost Value = { WokenView };

    ghost view = { λ w. record { places = w.places.items; is_all = w.is_all } };
}

impl Woken {
    /// No goal is woken.
    pub fn new(alloc: Global) -> Woken
        ensures { result ≡ record { places = []; is_all = false } }
    {
        Woken {
            places: Vec::new(alloc),
            is_all: false,
        }
    }

    /// The goal at a place is woken.
    pub fn put(&mut self, place: usize)
        ensures put { may_stand place self.new ≡ true }
        ensures kept { IsKeptIn self.old self.new }
    {
        if self.places.push(place).is_err() {
            self.is_all = true;
        }
    }

    /// Whether it stands for all goals.
    pub fn is_all(&self) -> bool
        ensures { result ≡ self.now.is_all }
    {
        self.is_all
    }

    /// Whether it stands for no goal.
    pub fn is_empty(&self) -> bool
        ensures { result ≡ true → (self.now ≡ record { places = []; is_all = false }) }
    {
        !self.is_all && self.places.is_empty()
    }

    /// It stands for no more than it names.
    pub fn clear_all(&mut self)
        ensures { self.new ≡ record { places = self.old.places; is_all = false } }
    {
        self.is_all = false;
    }

    /// Takes a place out, if it names one.
    pub fn take(&mut self) -> Option<usize>
        ensures all { self.new.is_all ≡ self.old.is_all }
        ensures taken { MatchOption result ((self.old.places ≡ []) × (self.new.places ≡ []))
            (λ place. self.old.places ≡ self.new.places ++ place ∷ []) }
    {
        self.places.pop()
    }
}

/// Takes a goal of a session that is to be looked at, if there is one.
pub(crate) fn next_woken(woken: &mut Woken, goals: &[Goal], seat: usize) -> Option<usize>
    requires { CoversWoken seat goals.now woken.old }
    ensures found { IfSome result (λ place. IsWokenAt seat goals.now place) }
    ensures kept { IfSome result (λ place. CoversWokenBut place seat goals.now woken.new) }
    ensures none { IfNone result (NoneWoken seat goals.now) }
{
    while let Some(place) = woken.take() {
        if place < goals.len() && goals[place].is_woken_of(seat) {
            return Some(place);
        }
    }
    if !woken.is_all() {
        return None;
    }
    let found = goals.iter().position(|goal| goal.is_woken_of(seat));
    if found.is_none() {
        woken.clear_all();
    }
    found
}
