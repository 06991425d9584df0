//! What builders write.

ghost use Rattle.std.specs.Prelude.{◌≡◌, IfOk, IfErr, MatchResult, Some, None};
ghost use Rattle.std.specs.Option.{option_copied};
ghost use Rattle.model.specs.declared.refusal.Refusal.TheVariants.{Memory};
ghost use Rattle.model.specs.Archives.{nar, AreBytes};
ghost use Rattle.model.specs.ArchiveReading.{tree_of_archive};

use model::{Refusal, SharedBytes};
use nar::{Tree, decode};
use std::alloc::AllocError;
use std::marker::Model;

/// What a builder wrote, as it is kept.
#[derive(Drop)]
enum Written {
    /// The archive of a tree, which is kept in its place.
    Archive(Tree),
    /// Bytes that are the archive of no tree.
    Other(SharedBytes),
}

/// What a builder wrote: any bytes, of which those are an output that are the archive of a tree. They are read
/// when it is made, and never again: of an archive its tree is kept, and of any others the bytes. A copy shares
/// what is kept.
pub struct Output {
    written: Written,
}

impl Drop for Output {
    fn drop(self) {
        let Output { written: _ } = self;
    }
}

impl Model for Output {
    ghost use Rattle.std.specs.Prelude.{List, ℕ};
    ghost use Rattle.events.specs.Outputs.{bytes_written, IsKept};

    ghost Value = { List ℕ };

    ghost view = { λ output. bytes_written output.written };

    ghost invariant = { λ output. IsKept output.written };
}

impl Output {
    /// The output of these bytes. The tree of an archive takes about as much memory as they do.
    ///
    /// # Errors
    ///
    /// - `Memory` only where memory was refused.
    pub fn new(bytes: Vec<u8>) -> Result<Output, Refusal>
        ensures output { IfOk result (λ output. output ≡ bytes.items) }
        ensures memory { IfErr result (λ why. why ≡ Memory) }
    {
        let written = match decode(*bytes.allocator(), bytes.as_slice()) {
            Ok(tree) => Written::Archive(tree),
            Err(Refusal::Memory) => return Err(Refusal::Memory),
            Err(_) => Written::Other(SharedBytes::from_vec(bytes)?),
        };
        Ok(Output { written })
    }

    /// The output whose bytes are the archive of a tree. They are not written down.
    pub fn archive_of(tree: Tree) -> Output
        ensures { result ≡ nar tree }
    {
        tree.sound();
        Output {
            written: Written::Archive(tree),
        }
    }

    /// The tree whose archive it is, if it is one.
    pub fn tree(&self) -> Option<&Tree>
        ensures { option_copied result ≡ tree_of_archive self.now }
    {
        match &self.written {
            Written::Archive(tree) => Some(tree),
            Written::Other(_) => None,
        }
    }

    /// The tree whose archive it is, or its bytes, where they are the archive of no tree.
    pub fn tree_or_bytes(&self) -> Result<&Tree, &[u8]>
        ensures { MatchResult result (λ tree. tree_of_archive self.now ≡ Some tree.now)
            (λ bytes. (tree_of_archive self.now ≡ None) × (bytes.now ≡ self.now)) }
    {
        match &self.written {
            Written::Archive(tree) => Ok(tree),
            Written::Other(bytes) => Err(bytes.as_slice()),
        }
    }

    /// Its bytes are bytes.
    pub fn sound(&self)
        ensures { AreBytes self.now }
    {
        let _ = &self.written;
    }
}

/// The copy is equal, and shares what is kept. It takes no memory.
impl Clone for Output {
    ghost is_clone = { λ output copy. copy ≡ output };

    fn clone(&self) -> Result<Output, AllocError> {
        let written = match &self.written {
            Written::Archive(tree) => Written::Archive(tree.clone()?),
            Written::Other(bytes) => Written::Other(bytes.clone()?),
        };
        Ok(Output { written })
    }
}
