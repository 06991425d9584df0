//! The digest of an archive.

ghost use Rattle.std.specs.Prelude.{◌≡◌};
ghost use Rattle.sha2.specs.Sha256.{sha256};
ghost use Rattle.model.specs.Archives.{nar, IsTree};

use crate::faults::Faults;
use crate::sink::Sink;
use crate::tree::Tree;
use crate::walk::hand_archive;
use hashmod::Hasher;

/// It takes the archive of a tree, string by string.
impl Sink for Hasher {
    ghost use Rattle.std.specs.Prelude.{◌++◌, ℕ, List};
    ghost use Rattle.hashmod.specs.Hashing.{HasTaken};

    ghost took = { λ start now text. (taken : List ℕ) → HasTaken start taken → HasTaken now (taken ++ text) };

    fn take(&mut self, piece: &[u8]) {
        self.update(piece);
    }
}

/// It never fails.
impl Faults for Hasher {
    ghost failed = { λ _. 0 };

    fn failures(&self) -> u64 {
        0
    }
}

/// The SHA-256 digest of a tree's archive, which is never made: the hasher is handed its strings. It takes no
/// memory.
pub fn nar_digest(tree: &Tree) -> [u8; 32]
    ensures digest { result ≡ sha256 (nar tree.now) }
    ensures tree { IsTree tree.now }
{
    let mut hasher = Hasher::new();
    hand_archive(tree, &mut hasher);
    hasher.finish()
}
