//! The occurrences of hash parts in a tree.

ghost use Rattle.std.specs.Prelude.{◌≡◌, ◌+◌, ◌^◌, ◌<◌, ◌≤◌, length, None, false, true, IfOk, IfErr};
ghost use Rattle.model.specs.Occurrences.{among, occurrences, fault, crowded};
ghost use Rattle.model.specs.Archives.{nar};
ghost use Rattle.model.specs.Occurrences.{places_in};
ghost use Rattle.scan.specs.Refusing.{IsFault};
ghost use Rattle.scan.specs.Searching.{Finds, text_places, tree_places};

use crate::keys::Keys;
use crate::names::split_piece;
use crate::search::{holds, search};
use crate::seek::{Seek, Sought};
use model::{Refusal, RewriteFault};
use nar::Nar;
use std::alloc::Global;
use std::marker::Model;
use storepath::HashPart;

/// Places in an archive or another text, ascending and at least 32 bytes apart: where each begins, in
/// bytes from its beginning, and the hash part that stands there.
pub struct Places {
    places: Vec<(usize, HashPart)>,
}

impl Drop for Places {
    fn drop(self) {
        let Places { places: _ } = self;
    }
}

impl Model for Places {
    ghost use Rattle.std.specs.Prelude.{◌≡◌, List, false};
    ghost use Rattle.model.specs.Occurrences.{Place, crowded};

    ghost Value = { List Place };

    ghost view = { λ places. places.places.items };

    ghost invariant = { λ places. crowded places.places.items ≡ false };
}

impl Places {
    /// Each place with its hash part, in order.
    pub fn as_slice(&self) -> &[(usize, HashPart)]
        ensures value { result.now ≡ self.now }
        ensures apart { crowded self.now ≡ false }
    {
        self.places.as_slice()
    }
}

/// Where keys stand in a text. The time is in proportion to its length, however many keys there are.
///
/// # Errors
///
/// - [`Refusal::RewriteRefused`] with `Overlap` exactly where two places are less than 32 bytes
///   apart.
/// - [`Refusal::Memory`] only where memory was refused.
pub fn places_in(alloc: Global, text: &[u8], keys: &Keys) -> Result<Places, Refusal>
    ensures found { IfOk result (λ places. places ≡ text_places keys.now text.now) }
    ensures apart { IfOk result (λ places. crowded places ≡ false) }
    ensures refused { IfErr result (Finds (crowded (text_places keys.now text.now) ≡ true)) }
{
    let _len = text.len();
    places_in_by(alloc, text, &mut Sought { keys, asked: 0 })
}

/// Where the keys that `seek` tells stand in a text.
///
/// # Errors
///
/// Those of [`places_in`].
fn places_in_by<S: Seek>(alloc: Global, text: &[u8], seek: &mut S) -> Result<Places, Refusal>
    requires room { S.looked seek.old + length text.now < 2 ^ 64 }
    ensures found { IfOk result (λ places. places ≡ places_in (S.keys seek.old) 0 text.now) }
    ensures apart { IfOk result (λ places. crowded places ≡ false) }
    ensures refused { IfErr result
        (Finds (crowded (places_in (S.keys seek.old) 0 text.now) ≡ true)) }
{
    let mut places = Vec::new(alloc);
    if search(&mut places, text, 0, seek)? {
        return Err(Refusal::RewriteRefused(RewriteFault::Overlap));
    }
    Ok(Places { places })
}

/// Where the keys that `seek` tells stand in an archive, whatever they stand in. The time is in proportion to
/// its length, however many keys there are. That `seek` can count so many questions more is the caller's
/// to know.
///
/// # Errors
///
/// - [`Refusal::RewriteRefused`] with `Overlap` exactly where two places are less than 32 bytes
///   apart.
/// - [`Refusal::Memory`] only where memory was refused.
pub fn places_by<S: Seek>(alloc: Global, archive: &Nar, seek: &mut S) -> Result<Places, Refusal>
    requires room { S.looked seek.old + length (nar archive.now) < 2 ^ 64 }
    ensures found { IfOk result (λ places. places ≡ occurrences (S.keys seek.old) archive.now) }
    ensures apart { IfOk result (λ places. crowded places ≡ false) }
    ensures refused { IfErr result
        (Finds (crowded (occurrences (S.keys seek.old) archive.now) ≡ true)) }
{
    seek.sound();
    match places_in_by(alloc, archive.bytes(), seek) {
        Ok(places) => Ok(places),
        Err(why) => Err(why),
    }
}

/// The occurrences of keys in a tree's names, file bytes and link targets, by their places in its
/// archive.
///
/// # Errors
///
/// - [`Refusal::RewriteRefused`] with `InName` exactly where a key stands in a name.
/// - [`Refusal::RewriteRefused`] with `Overlap` exactly where none does, and two keys in one string
///   share bytes.
/// - [`Refusal::Memory`] only where memory was refused.
pub fn occurrences(alloc: Global, archive: &Nar, keys: &Keys) -> Result<Places, Refusal>
    ensures found { IfOk result (λ places. places ≡ tree_places keys.now archive.now) }
    ensures sound { IfOk result (λ places. fault (among keys.now) archive.now ≡ None) }
    ensures refused { IfErr result (IsFault (fault (among keys.now) archive.now)) }
{
    archive.sound();
    occurrences_by(alloc, archive, &mut Sought { keys, asked: 0 })
}

/// The occurrences of the keys that `seek` tells, in one pass: each string of the tree is gone over
/// once, so `seek` is asked at most once for each byte of the archive. That it can count so many
/// questions more is the caller's to know.
///
/// # Errors
///
/// Those of [`occurrences`].
pub fn occurrences_by<S: Seek>(
    alloc: Global,
    archive: &Nar,
    seek: &mut S,
) -> Result<Places, Refusal>
    requires room { S.looked seek.old + length (nar archive.now) < 2 ^ 64 }
    ensures found { IfOk result (λ places. places ≡ occurrences (S.keys seek.old) archive.now) }
    ensures sound { IfOk result (λ places. fault (S.keys seek.old) archive.now ≡ None) }
    ensures refused { IfErr result (IsFault (fault (S.keys seek.old) archive.now)) }
    ensures kept { S.keys seek.new ≡ S.keys seek.old }
    ensures looks { S.looked seek.new ≤ S.looked seek.old + length (nar archive.now) }
{
    seek.sound();
    let whole = archive.bytes();
    let mut places = Vec::new(alloc);
    let mut is_crowded = false;
    let mut rest = whole;
    for _ in 0..whole.len() {
        let Some((part, behind)) = split_piece(rest) else {
            break;
        };
        if let Some(part) = part {
            if part.is_name {
                if holds(part.bytes, seek) {
                    return Err(Refusal::RewriteRefused(RewriteFault::InName));
                }
            } else if !is_crowded {
                let start = whole.len() - rest.len() + 24;
                is_crowded = search(&mut places, part.bytes, start, seek)?;
            }
        }
        rest = behind;
    }
    if is_crowded {
        return Err(Refusal::RewriteRefused(RewriteFault::Overlap));
    }
    Ok(Places { places })
}
