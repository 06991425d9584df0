//! Reading the text of a tree.

ghost use Rattle.std.specs.Prelude.{◌≡◌, IfOk, IfErr, length, true, []};
ghost use Rattle.std.specs.Arc.{arc_value};
ghost use Rattle.std.specs.List.{list_all};
ghost use Rattle.std.specs.Result.{result_ok};
ghost use Rattle.hex.specs.Hex.{decode_of};
ghost use Rattle.model.specs.Archives.{IsTree};
ghost use Rattle.model.specs.TreeTexts.{tree_text_of, separator};
ghost use Rattle.nar.specs.NodeTrees.{tree_of, entries_of, last_name_of};
ghost use Rattle.model.specs.ArchiveReading.{prefix_at};
ghost use Rattle.model.specs.ReadOutcomes.{Gives};
ghost use Rattle.tree_text.specs.TextReading.{is_lower_digit, digits_in_front, digits_at, closes, name_at, item_at, items_at, listed_at, leaf_of, leaf_at, text_at, whole_at};
ghost use Rattle.tree_text.specs.Refusing.{IsNoText};

use crate::digits::decode_digits;
use crate::writer::separator_before;
use hex::FromHexError;
use model::{GREATEST_DEPTH, MOST_ARCHIVE_BYTES, ReadError, Refusal};
use nar::{
    Node, Tree, alone, comes_before, is_name, last_name, node_depth, node_len, shared, skip_prefix,
    split,
};
use std::alloc::Global;
use std::sync::Arc;

// So many bytes are looked at together.
const BLOCK: usize = 64;

/// The tree of a tree text.
///
/// The recursion is at most 64 deep.
///
/// # Errors
///
/// - `BadNar` exactly where no tree has that text, not even one with a longer archive: base 16 has
///   two digits for each byte and no capitals.
/// - `TooLarge` exactly where the text is that of a tree, but for its archive, which would have
///   more than 67,108,864 bytes.
/// - `Memory` only where memory was refused.
pub fn read_tree_text(alloc: Global, text: &[u8]) -> Result<Tree, Refusal>
    ensures tree { IfOk result (λ tree. (text.now ≡ tree_text_of tree) × IsTree tree) }
    ensures refused { IfErr result (IsNoText text.now) }
{
    match read_whole_text(alloc, text) {
        Ok(node) => {
            let nar_len = 24 + node_len(&node);
            if nar_len > MOST_ARCHIVE_BYTES {
                return Err(Refusal::TooLarge);
            }
            let depth = node_depth(&node);
            let tree = Tree::measured(alloc, node, depth, nar_len)?;
            Ok(tree)
        }
        Err(ReadError::Malformed) => Err(Refusal::BadNar),
        Err(ReadError::Memory) => Err(Refusal::Memory),
    }
}

// The node of a whole text.
#[tactic(auto, unfolding(crate::specs::TextReading::whole_at))]
fn read_whole_text(alloc: Global, bytes: &[u8]) -> Result<Node, ReadError>
    ensures { Gives tree_of result (whole_at bytes.now) }
{
    let (node, rest) = read_text(alloc, bytes, GREATEST_DEPTH)?;
    alone(node, rest)
}

// The text of a tree of at most this depth.
#[cycle(parse)]
#[tactic(auto, unfolding(crate::specs::TextReading::text_at))]
fn read_text(alloc: Global, bytes: &[u8], depth: usize) -> Result<(Node, &[u8]), ReadError>
    ensures { Gives (λ r. (tree_of r.0, r.1.now)) result (text_at depth bytes.now) }
{
    if depth == 0 {
        return Err(ReadError::Malformed);
    }
    let (kind, rest) = split(bytes, 2)?;
    if kind == b"d(".as_slice() {
        return read_listed(alloc, rest, depth - 1);
    }
    read_leaf(alloc, kind, rest)
}

// A file or a link, behind the kind's mark.
#[tactic(auto, unfolding(crate::specs::TextReading::leaf_at))]
fn read_leaf<'a>(alloc: Global, kind: &[u8], bytes: &'a [u8]) -> Result<(Node, &'a [u8]), ReadError>
    ensures { Gives (λ r. (tree_of r.0, r.1.now)) result (leaf_at kind.now bytes.now) }
{
    let (decoded, rest) = read_digits(alloc, bytes)?;
    let node = leaf(kind, decoded)?;
    Ok((node, rest))
}

// The file or the link of a kind that has these bytes.
fn leaf(kind: &[u8], bytes: Vec<u8>) -> Result<Node, ReadError>
    ensures { Gives tree_of result (leaf_of kind.now bytes.items) }
{
    if kind == b"f:".as_slice() {
        return Ok(Node::File {
            executable: false,
            bytes,
        });
    }
    if kind == b"x:".as_slice() {
        return Ok(Node::File {
            executable: true,
            bytes,
        });
    }
    if kind == b"l:".as_slice() {
        return Ok(Node::Link { target: bytes });
    }
    Err(ReadError::Malformed)
}

// A directory, behind its mark.
#[cycle(parse)]
#[tactic(auto, using(nar::proofs::NodeViews::directory_tree), unfolding(crate::specs::TextReading::listed_at))]
fn read_listed(alloc: Global, bytes: &[u8], depth: usize) -> Result<(Node, &[u8]), ReadError>
    ensures { Gives (λ r. (tree_of r.0, r.1.now)) result
        (listed_at (text_at depth) bytes.now) }
{
    let (entries, rest) = read_items(alloc, bytes, depth)?;
    let rest = skip_prefix(rest, b")")?;
    Ok((Node::Directory { entries }, rest))
}

// Entries, as many as there are.
#[cycle(parse)]
fn read_items(
    alloc: Global,
    bytes: &[u8],
    depth: usize,
) -> Result<(Vec<(Vec<u8>, Arc<Node>)>, &[u8]), ReadError>
    ensures { Gives (λ r. (entries_of r.0.items, r.1.now)) result
        (items_at (text_at depth) (length bytes.now) true [] bytes.now) }
{
    let mut entries = Vec::new(alloc);
    let mut first = true;
    let mut rest = bytes;
    for _ in 0..bytes.len() {
        if is_closed(rest) {
            return Ok((entries, rest));
        }
        let start = skip_separator(rest, first)?;
        let (entry, after) = read_item(alloc, &entries, start, depth)?;
        entries.push(entry)?;
        first = false;
        rest = after;
    }
    Ok((entries, rest))
}

// Whether a closing bracket comes next.
fn is_closed(bytes: &[u8]) -> bool
    ensures { result ≡ closes bytes.now }
{
    match bytes {
        [] => false,
        [first, ..] => *first == b')',
    }
}

// What follows the separator before an entry.
fn skip_separator(bytes: &[u8], first: bool) -> Result<&[u8], ReadError>
    ensures { Gives (λ rest. rest.now) result (prefix_at (separator first) bytes.now) }
{
    skip_prefix(bytes, separator_before(first))
}

// An entry, whose name comes after those before it.
#[cycle(parse)]
#[tactic(auto, unfolding(crate::specs::TextReading::item_at))]
fn read_item<'a>(
    alloc: Global,
    before: &[(Vec<u8>, Arc<Node>)],
    bytes: &'a [u8],
    depth: usize,
) -> Result<((Vec<u8>, Arc<Node>), &'a [u8]), ReadError>
    ensures { Gives (λ r. ((r.0.0.items, tree_of (arc_value r.0.1)), r.1.now)) result
        (item_at (text_at depth) (last_name_of before.now) bytes.now) }
{
    let (name, rest) = read_next_name(alloc, last_name(before), bytes)?;
    let (node, rest) = read_text(alloc, rest, depth)?;
    let node = shared(alloc, node)?;
    Ok(((name, node), rest))
}

// The name of an entry, which comes after the last one.
#[tactic(auto, unfolding(crate::specs::TextReading::name_at))]
fn read_next_name<'a>(
    alloc: Global,
    last: &[u8],
    bytes: &'a [u8],
) -> Result<(Vec<u8>, &'a [u8]), ReadError>
    ensures { Gives (λ r. (r.0.items, r.1.now)) result (name_at last.now bytes.now) }
{
    let (name, rest) = read_digits(alloc, bytes)?;
    let rest = skip_prefix(rest, b"=")?;
    if is_name(&name) && comes_before(last, &name) {
        Ok((name, rest))
    } else {
        Err(ReadError::Malformed)
    }
}

// The bytes of the digits in front, and the rest.
#[tactic(auto, unfolding(crate::specs::TextReading::digits_at))]
fn read_digits(alloc: Global, bytes: &[u8]) -> Result<(Vec<u8>, &[u8]), ReadError>
    ensures { Gives (λ r. (r.0.items, r.1.now)) result (digits_at bytes.now) }
{
    let (digits, rest) = split(bytes, digit_count(bytes))?;
    let bytes = decoded(alloc, digits)?;
    Ok((bytes, rest))
}

// How many digits stand in front. As long as a whole block is digits it is passed at once; so no more
// than a block is looked at past the last digit.
fn digit_count(bytes: &[u8]) -> usize
    ensures { result ≡ length (digits_in_front bytes.now) }
{
    let mut rest = bytes;
    while let Some((block, others)) = rest.split_first_chunk::<BLOCK>() {
        if !are_digits(block) {
            break;
        }
        rest = others;
    }
    bytes.len() - rest.len() + single_digit_count(rest)
}

// The same, a byte at a time.
fn single_digit_count(bytes: &[u8]) -> usize
    ensures { result ≡ length (digits_in_front bytes.now) }
{
    bytes.iter().take_while(|byte| is_digit(**byte)).count()
}

// Whether all bytes of a block are digits. It looks at each of them, so that several are taken at once.
fn are_digits(block: &[u8; BLOCK]) -> bool
    ensures { result ≡ list_all is_lower_digit block.now }
{
    let mut are_digits = true;
    for byte in block {
        are_digits = are_digits & is_digit(*byte);
    }
    are_digits
}

// Whether a byte is a digit of base 16 in lower case.
fn is_digit(byte: u8) -> bool
    ensures { result ≡ is_lower_digit byte }
{
    matches!(byte, b'0'..=b'9' | b'a'..=b'f')
}

// The bytes of these digits.
fn decoded(alloc: Global, digits: &[u8]) -> Result<Vec<u8>, ReadError>
    requires { list_all is_lower_digit digits.now ≡ true }
    ensures { Gives (λ bytes. bytes.items) result (result_ok (decode_of digits.now)) }
{
    match decode_digits(alloc, digits) {
        Ok(bytes) => Ok(bytes),
        Err(FromHexError::OutOfMemory) => Err(ReadError::Memory),
        Err(_) => Err(ReadError::Malformed),
    }
}
