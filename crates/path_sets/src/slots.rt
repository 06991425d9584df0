//! Slots that hash parts have.

ghost use Rattle.std.specs.Prelude.{◌≡◌, ◌+◌, ◌*◌, ◌<◌, ◌≤◌, ℕ, List, false, take, drop, IfOk};
ghost use Rattle.std.specs.Int.{w64, from_le_bytes};
ghost use Rattle.path_sets.specs.Slots.{is_marked, slot_of, with_mark};

use std::alloc::{AllocError, Global};
use std::marker::Model;

/// How many words of 64 bits have a bit for each slot, where few hash parts are marked.
const FEW_WORDS: usize = 64;

/// How many there are where many may be.
const MANY_WORDS: usize = 1_024;

/// How many hash parts are few: of 256 other windows one has a slot of theirs.
const FEW: usize = 16;

/// An odd number near 2 to the 64th, divided by the golden ratio, which spreads the slots.
const FACTOR: u64 = 11_400_714_819_323_198_485;

/// Which slots are marked, 64 to a word: of 4,096 for few hash parts, else of 65,536.
///
/// They tell of most windows, by a look into 512 bytes or 8 KiB, that no hash part is there which was marked.
pub struct Slots {
    words: Vec<u64>,
}

impl Drop for Slots {
    fn drop(self) {
        let Slots { words: _ } = self;
    }
}

impl Model for Slots {
    ghost use Rattle.std.specs.Prelude.{◌<◌, ◌≤◌, ℕ, List, length};

    ghost Value = { List ℕ };

    ghost view = { λ slots. slots.words.items };

    ghost invariant = { λ slots. (0 < length slots.words.items) × (length slots.words.items ≤ 1024) };
}

/// Eight bytes of a window as a number.
fn word_at(window: &[u8; 32], at: usize) -> u64
    requires { at + 8 ≤ 32 }
    ensures { result ≡ from_le_bytes w64 (take 8 (drop at window.now)) }
{
    match window[at..].first_chunk::<8>() {
        Some(bytes) => u64::from_le_bytes(*bytes),
        None => unreachable!(),
    }
}

/// The slot of a window where there are so many words.
#[tactic(auto, unfolding(crate::specs::Slots::slot_of))]
fn slot_of(words: usize, window: &[u8; 32]) -> usize
    requires some { 0 < words }
    requires most { words ≤ 1024 }
    ensures slot { result ≡ slot_of words window.now }
    ensures below { result < words * 64 }
{
    let first = word_at(window, 0);
    let last = word_at(window, 24);
    let mixed = first
        .wrapping_mul(FACTOR)
        .wrapping_add(last)
        .wrapping_mul(FACTOR);
    (mixed >> 48) as usize & (words * 64 - 1)
}

/// How many words there are to be for so many hash parts.
fn words_for(parts: usize) -> usize
    ensures some { 0 < result }
    ensures most { result ≤ 1024 }
{
    if parts <= FEW { FEW_WORDS } else { MANY_WORDS }
}

impl Slots {
    /// Slots for so many hash parts, or more; none is marked. The one error is memory.
    pub fn new(alloc: Global, parts: usize) -> Result<Slots, AllocError>
        ensures { IfOk result (λ slots. (w : List ℕ) → is_marked slots w ≡ false) }
    {
        let words = words_for(parts);
        Ok(Slots {
            words: vec![in alloc; 0; words]?,
        })
    }

    /// Marks the slot of a hash part.
    pub fn mark(&mut self, digits: &[u8; 32])
        ensures { (w : List ℕ) → is_marked self.new w ≡ with_mark digits.now self.old w }
    {
        let slot = slot_of(self.words.len(), digits);
        self.words[slot / 64] |= 1 << (slot % 64);
    }

    /// Whether the slot of a window is marked.
    pub fn are_marked(&self, window: &[u8; 32]) -> bool
        ensures { result ≡ is_marked self.now window.now }
    {
        let slot = slot_of(self.words.len(), window);
        (self.words[slot / 64] >> (slot % 64)) & 1 == 1
    }
}
