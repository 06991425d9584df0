//! What is put on a desk.

ghost use Rattle.std.specs.Prelude.{◌≡◌};
ghost use Rattle.records.specs.DeskEntries.{entry_path};

use crate::record::Record;
use storepath::StorePath;

/// What is put on a desk at a path, whose tree the path table has.
#[derive(Drop)]
pub enum DeskEntry {
    /// A source.
    Source(StorePath),
    /// What was built for a class.
    Record(Record),
}

impl DeskEntry {
    /// The path.
    pub fn path(&self) -> &StorePath
        ensures { result.now ≡ entry_path self.now }
    {
        match self {
            DeskEntry::Source(path) => path,
            DeskEntry::Record(record) => record.path(),
        }
    }
}
