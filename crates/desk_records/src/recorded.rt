//! Records of a class, at a path.

ghost use Rattle.std.specs.Prelude.{◌≡◌};
ghost use Rattle.desk_records.specs.RecordLists.{is_recorded_at};

use records::Record;
use storepath::StorePath;

/// Whether a record is of a class, at a path.
pub(crate) fn is_recorded_at(class: &StorePath, path: &StorePath, one: &Record) -> bool
    ensures { result ≡ is_recorded_at class.now path.now one.now }
{
    one.path() == path && one.class().path() == class
}
