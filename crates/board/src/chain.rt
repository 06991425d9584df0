//! Goals that a search has come to.

ghost use Rattle.std.specs.Prelude.{◌≡◌, ◌<◌, ◌≤◌, [], length, slice_index, IfOk, OnOk, OnErr};
ghost use Rattle.board.specs.Chains.{ChainView, with_place, empty_chain};

use std::alloc::{AllocError, Global};
use std::marker::Model;

/// Places below a size, each once, in the order in which they came.
pub(crate) struct Chain {
    places: Vec<usize>,
    has: Vec<bool>,
}

impl Drop for Chain {
    fn drop(self) {
        let Chain { places: _, has: _ } = self;
    }
}

impl Model for Chain {
    ghost use Rattle.std.specs.Prelude.{length};
    ghost use Rattle.board.specs.Chains.{ChainView, IsChain};

    ghost Value = { ChainView };

    ghost view = { λ c. record { places = c.places.items; size = length c.has.items } };

    ghost invariant = { λ c. IsChain c.places.items c.has.items };
}

impl Chain {
    /// No places, which are to be below a size.
    pub(crate) fn new(alloc: Global, size: usize) -> Result<Chain, AllocError>
        ensures { IfOk result (λ c. c ≡ empty_chain size) }
    {
        Ok(Chain {
            places: Vec::new(alloc),
            has: vec![in alloc; false; size]?,
        })
    }

    /// A place, which may be there.
    pub(crate) fn add(&mut self, place: usize) -> Result<(), AllocError>
        requires { place < self.old.size }
        ensures added { OnOk result (self.new ≡ with_place place self.old) }
        ensures left { OnErr result (self.new ≡ self.old) }
    {
        if self.has[place] {
            return Ok(());
        }
        self.places.push(place)?;
        self.has[place] = true;
        Ok(())
    }

    /// How many there are.
    pub(crate) fn len(&self) -> usize
        ensures many { result ≡ length self.now.places }
        ensures most { result ≤ self.now.size }
    {
        self.places.len()
    }

    /// One of them.
    pub(crate) fn place(&self, index: usize) -> usize
        requires { index < length self.now.places }
        ensures place { result ≡ slice_index self.now.places index }
        ensures within { result < self.now.size }
    {
        self.places[index]
    }
}
