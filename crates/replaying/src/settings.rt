//! What a run of lines is asked for.

use schedule::Limits;
use std::hash::RandomState;

/// What a store is made with.
#[derive(Clone, Copy)]
pub struct Settings {
    /// The hasher of its maps.
    pub hashing: RandomState,
    /// What it may hold.
    pub limits: Limits,
}

/// The user for whom events are struck out, and by which trust.
#[derive(Clone, Copy)]
pub struct Observer<'a> {
    /// The user's name.
    pub name: &'a [u8],
    /// Whether only trust counts that is held at the times concerned, in place of all that is ever given.
    pub timed: bool,
}
