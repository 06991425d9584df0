//! Bytes that copies share.

ghost use Rattle.std.specs.Prelude.{◌≡◌, ◌∷◌, [], List, ℕ, IfOk};
ghost use Rattle.std.specs.Arc.{arc_slice_items};
ghost use Rattle.std.specs.Cmp.{partial_order_from_own_ties};
ghost use Rattle.std.specs.Cmp.Lexicographic.{slice_cmp};
ghost use Rattle.std.specs.Cmp.Rules.{comparing, hashing};
ghost use Rattle.std.specs.Ordering.{as_partial_cmp, nat_cmp};
ghost use Rattle.std.specs.Str.{bytes_eq};
ghost use Rattle.std.proofs.Common.{rules};
ghost use Rattle.model.specs.Archives.{AreBytes};

use std::alloc::{AllocError, Global};
use std::cmp::Ordering;
use std::hash::{Hash, Hasher};
use std::marker::Model;
use std::sync::ArcSlice;

/// Any bytes, which copies share. Its value is the list of them.
///
/// A type that holds these alone derives its comparisons and its hash, where its `Model` has an
/// `inverse`.
#[derive(Debug)]
pub struct SharedBytes {
    bytes: ArcSlice<u8>,
}

impl Drop for SharedBytes {
    fn drop(self) {
        let SharedBytes { bytes: _ } = self;
    }
}

impl Model for SharedBytes {
    ghost Value = { List ℕ };

    ghost view = { λ shared. arc_slice_items shared.bytes };
}

impl SharedBytes {
    /// These bytes, which are not copied. The one error is memory.
    pub fn from_vec(bytes: Vec<u8>) -> Result<SharedBytes, AllocError>
        ensures { IfOk result (λ shared. shared ≡ bytes.items) }
    {
        let bytes = ArcSlice::from_vec(bytes)?;
        Ok(SharedBytes { bytes })
    }

    /// A copy of these bytes. The one error is memory.
    pub fn from_slice(alloc: Global, bytes: &[u8]) -> Result<SharedBytes, AllocError>
        ensures { IfOk result (λ shared. shared ≡ bytes.now) }
    {
        let bytes = ArcSlice::from_slice(alloc, bytes)?;
        Ok(SharedBytes { bytes })
    }

    /// The bytes.
    pub fn as_slice(&self) -> &[u8]
        ensures { result.now ≡ self.now }
    {
        self.bytes.as_slice()
    }

    /// Each of them is a number below 256.
    pub fn sound(&self)
        ensures { AreBytes self.now }
    {
        sound(self.as_slice());
    }
}

fn sound(bytes: &[u8])
    ensures { AreBytes bytes.now }
{
    let _ = bytes;
}

/// Equal where the bytes are.
impl PartialEq for SharedBytes {
    ghost eq = { bytes_eq };

    ghost laws = { Prim.search (comparing, rules) };

    fn eq(&self, other: &SharedBytes) -> bool {
        self.as_slice() == other.as_slice()
    }
}

impl Eq for SharedBytes {
    ghost laws = { Prim.search (comparing, rules) };
}

/// In the order of the bytes, where the first that differ decide.
impl Ord for SharedBytes {
    ghost cmp = { slice_cmp nat_cmp };

    ghost total = { Prim.search (comparing, rules) };

    ghost matches_partial_cmp = { Prim.search (comparing, rules) };

    ghost matches_eq = { Prim.search (comparing, rules) };

    fn cmp(&self, other: &SharedBytes) -> Ordering {
        self.as_slice().cmp(other.as_slice())
    }
}

impl PartialOrd for SharedBytes {
    ghost partial_cmp = { as_partial_cmp (slice_cmp nat_cmp) };

    ghost laws = { partial_order_from_own_ties (Prim.search (comparing, rules)) (Prim.search (comparing, rules)) };

    fn partial_cmp(&self, other: &SharedBytes) -> Option<Ordering> {
        Some(self.cmp(other))
    }
}

/// Equal bytes have one hash. They are written at once.
impl Hash for SharedBytes {
    ghost hash_input = { λ bytes. bytes ∷ [] };

    ghost respects_eq = { Prim.search (hashing, rules) };

    fn hash<H: Hasher>(&self, state: &mut H) {
        state.write(self.as_slice());
    }
}

/// The copy is equal, and shares the bytes. It takes no memory; it fails only where there are 2^63 - 1
/// copies.
impl Clone for SharedBytes {
    ghost is_clone = { λ bytes copy. copy ≡ bytes };

    fn clone(&self) -> Result<SharedBytes, AllocError> {
        let bytes = self.bytes.clone()?;
        Ok(SharedBytes { bytes })
    }
}
