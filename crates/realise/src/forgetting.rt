//! Forgetting what was built.

ghost use Rattle.std.specs.Prelude.{◌≡◌, ◌++◌, true, false, map, bytes_eq};
ghost use Rattle.std.specs.List.{list_any};
ghost use Rattle.model.specs.Classes.{is_one_of};
ghost use Rattle.realise.specs.Held.{paths_held};
ghost use Rattle.desk_records.specs.RecordLists.{is_recorded_at};
ghost use Rattle.realise.specs.Holdings.{is_needed, without_records};

use crate::desk::Desk;
use classes::Known;
use desk_records::Records;
use storepath::StorePath;

/// Whether a source or a record is at a path. No record is looked at.
fn is_there(known: &Known, records: &Records, path: &StorePath) -> bool
    ensures { result ≡ is_one_of (known.now.sources ++ map (λ r. r.path) records.now) path.now }
{
    known.has_source(path) || records.has_path(path)
}

impl Desk {
    /// Whether a record of a class, at a path, is on the desk. Those of the class are looked at, or those at
    /// the path, whichever are fewer.
    pub fn has_record_at(&self, class: &StorePath, path: &StorePath) -> bool
        ensures { result ≡ list_any (is_recorded_at class.now path.now) self.now.records }
    {
        self.records.has_recorded(class, path)
    }

    /// Whether a record has a label of a class at a path, and is not itself of that class at that path. That
    /// is counted, and no record is looked at.
    pub fn needs(&self, class: &StorePath, path: &StorePath) -> bool
        ensures { result ≡ is_needed class.now path.now self.now }
    {
        self.records.need(class, path)
    }

    /// Takes the records of a class at a path away, which no label of another record names. Where no
    /// source and no other record is at the path, its archive is charged no longer. It takes no memory.
    pub fn forget(&mut self, class: &StorePath, path: &StorePath)
        requires there { list_any (is_recorded_at class.now path.now) self.old.records ≡ true }
        requires free { is_needed class.now path.now self.old ≡ false }
        ensures value { self.new ≡ without_records class.now path.now self.old }
        ensures held { list_any (bytes_eq path.now) (paths_held self.old.archives) ≡ true }
    {
        self.records.remove(class, path);
        if !is_there(&self.known, &self.records, path) {
            self.holding.remove(path);
        }
    }
}
