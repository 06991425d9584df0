//! What entries are put on a desk as.

ghost use Rattle.std.specs.Prelude.{◌≡◌, [], ◌∷◌, ◌++◌, OnOk, IfErr, MatchResult};
ghost use Rattle.records.specs.DeskEntries.{entry_path};
ghost use Rattle.realise.specs.Holdings.{sources_in, records_in, AreParts};
ghost use Rattle.model.specs.declared.refusal.Refusal.TheVariants.{Memory};

use model::Refusal;
use records::{DeskEntry, Record};
use std::alloc::Global;
use storepath::StorePath;

/// What entries are put on a desk as: the sources among them, the records, and the path of each with
/// the bytes of its archive.
#[derive(Drop)]
pub(crate) struct Parts {
    pub(crate) sources: Vec<StorePath>,
    pub(crate) records: Vec<Record>,
    pub(crate) archives: Vec<(StorePath, u64)>,
}

impl Parts {
    /// No entries. It takes no memory.
    fn new(alloc: Global) -> Parts
        ensures sources { result.sources.items ≡ [] }
        ensures records { result.records.items ≡ [] }
        ensures archives { result.archives.items ≡ [] }
    {
        Parts {
            sources: Vec::new(alloc),
            records: Vec::new(alloc),
            archives: Vec::new(alloc),
        }
    }

    /// Adds an entry with the bytes of its archive. The one error is memory.
    fn push(&mut self, entry: DeskEntry, archive: u64) -> Result<(), Refusal>
        ensures sources { OnOk result
            (self.new.sources.items ≡ self.old.sources.items ++ sources_in (entry ∷ [])) }
        ensures records { OnOk result
            (self.new.records.items ≡ self.old.records.items ++ records_in (entry ∷ [])) }
        ensures archives { OnOk result
            (self.new.archives.items ≡ self.old.archives.items ++ (entry_path entry, archive) ∷ []) }
        ensures memory { IfErr result (λ e. e ≡ Memory) }
    {
        self.archives.push((entry.path().clone()?, archive))?;
        match entry {
            DeskEntry::Source(path) => self.sources.push(path)?,
            DeskEntry::Record(record) => self.records.push(record)?,
        }
        Ok(())
    }
}

/// The parts of entries with the bytes of their archives. The one error is memory.
pub(crate) fn parted(alloc: Global, entries: Vec<(DeskEntry, u64)>) -> Result<Parts, Refusal>
    ensures { MatchResult result
        (λ p. AreParts entries.items p.sources.items p.records.items p.archives.items)
        (λ e. e ≡ Memory) }
{
    let mut parts = Parts::new(alloc);
    for (entry, archive) in entries {
        parts.push(entry, archive)?;
    }
    Ok(parts)
}
