//! File system objects, and their archives.
//!
//! A [`Tree`] is a file system object of the Nix store: a file, a link or a directory. Its archive
//! is the NAR of the Nix Reference Manual ("Nix Archive (NAR) format", "File System Object") and of
//! Dolstra 2006, section 5.2: the one text that is hashed and handed to builders.
//!
//! | Calls | What they give |
//! |---|---|
//! | [`Tree::file`], [`Tree::link`], [`Tree::dir`] | a tree of its parts |
//! | [`encode`], [`decode`] | the archive of a tree, and the tree of an archive |
//! | [`write_nar`], [`hand_archive`] | the archive of a tree, written to a writer or handed to a [`Sink`], and never made |
//! | [`nar_digest`] | the SHA-256 digest of the archive of a tree, which is not made |
//! | [`write_whole`] | a text, written to a writer that counts its failures ([`Faults`]) |
//! | [`str_text`], [`read_str`] | one string of an archive, and the content of the string in front |
//! | [`ReadError`] | why a reader read nothing |
//! | [`Node`], [`Tree::node`], [`Tree::measured`] | what a tree holds, for who writes and reads another text of it |
#![tactic(auto)]

mod archive_reader;
mod archive_writer;
mod digest;
mod faults;
mod law;
mod measures;
mod names;
mod node;
mod parts;
mod sink;
mod steps;
mod strings;
mod text;
mod to_writer;
mod tree;
mod walk;
mod writing;

pub use archive_reader::decode;
pub use archive_writer::{Nar, encode, write_nar};
pub use digest::nar_digest;
pub use faults::{Faults, has_failed};
pub use law::{archives_are_read, archives_differ, strings_are_read};
pub use measures::{node_depth, node_len};
pub use model::ReadError;
pub use names::{comes_before, is_name};
pub use node::{Node, alone, last_name, shared};
pub use sink::Sink;
pub use steps::{skip_prefix, split};
pub use strings::{read_str, str_text};
pub use tree::Tree;
pub use walk::hand_archive;
pub use writing::write_whole;
