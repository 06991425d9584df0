//! The tree text of a tree: it writes the tree on one line of a request or a reply.
//!
//! | Calls | What they give |
//! |---|---|
//! | [`tree_text`], [`add_tree_text`], [`read_tree_text`] | the tree text of a tree, and the tree of a tree text |
//! | [`add_digits`], [`decode_digits`] | bytes in base 16, and the bytes of such digits, many at a time |
#![tactic(auto)]

mod digits;
mod law;
mod lengths;
mod reader;
mod writer;

pub use digits::decode_digits;
pub use law::texts_differ;
pub use reader::read_tree_text;
pub use writer::{add_digits, add_tree_text, tree_text};
