//! The limits that do not change from run to run, as numbers. The definitions have them in `specs/Limits`.

ghost use Rattle.std.specs.Prelude.{◌≡◌};
ghost use Rattle.model.specs.Limits.{most_users, most_passes, most_files, most_workers, longest_user_name, most_sources, most_derivations, most_records, most_pins, most_goals, greatest_depth, most_archive_bytes, most_entries, longest_name, longest_key, greatest_rank, most_derivation_bytes, most_charge, longest_line};

/// The most users of a run.
pub const MOST_USERS: usize = 64;

/// The most passes of a front: its sessions and workers.
pub const MOST_PASSES: usize = 64;

/// The most files of a run.
pub const MOST_FILES: usize = 8;

/// The most workers of a session.
pub const MOST_WORKERS: u64 = 7;

/// The most bytes of a user's name.
pub const LONGEST_USER_NAME: usize = 32;

/// The most sources of a user.
pub const MOST_SOURCES: usize = 1_024;

/// The most derivations of a user.
pub const MOST_DERIVATIONS: usize = 1_024;

/// The most records of a user.
pub const MOST_RECORDS: usize = 4_096;

/// The most pins of a user.
pub const MOST_PINS: usize = 4_096;

/// The most goals of a user, ever.
pub const MOST_GOALS: usize = 65_535;

/// The greatest depth of a tree, whose root has depth 1.
pub const GREATEST_DEPTH: usize = 64;

/// The most bytes of an archive: 64 MiB.
pub const MOST_ARCHIVE_BYTES: usize = 67_108_864;

/// The most entries of a closure.
pub const MOST_ENTRIES: usize = 1_024;

/// The most bytes of the name of a store path.
pub const LONGEST_NAME: usize = 211;

/// The most bytes of a key of a derivation's environment.
pub const LONGEST_KEY: usize = 64;

/// The greatest rank of a derivation.
pub const GREATEST_RANK: u8 = 64;

/// The most bytes of a derivation's text: 1 MiB.
pub const MOST_DERIVATION_BYTES: usize = 1_048_576;

/// The largest limit on a user's charge, in bytes of archives: 1 GiB.
pub const LARGEST_CHARGE: u64 = 1_073_741_824;

/// The most bytes of a line, without its newline and before its expansions: 256 MiB.
pub const LONGEST_LINE: usize = 268_435_456;

/// These numbers are those of the definitions.
///
/// No program calls this: it states the law, which its proof shows.
pub fn limits_are_defined()
    ensures users { MOST_USERS ≡ most_users }
    ensures passes { MOST_PASSES ≡ most_passes }
    ensures files { MOST_FILES ≡ most_files }
    ensures workers { MOST_WORKERS ≡ most_workers }
    ensures user_name { LONGEST_USER_NAME ≡ longest_user_name }
    ensures sources { MOST_SOURCES ≡ most_sources }
    ensures derivations { MOST_DERIVATIONS ≡ most_derivations }
    ensures records { MOST_RECORDS ≡ most_records }
    ensures pins { MOST_PINS ≡ most_pins }
    ensures goals { MOST_GOALS ≡ most_goals }
    ensures depth { GREATEST_DEPTH ≡ greatest_depth }
    ensures archive { MOST_ARCHIVE_BYTES ≡ most_archive_bytes }
    ensures entries { MOST_ENTRIES ≡ most_entries }
    ensures name { LONGEST_NAME ≡ longest_name }
    ensures key { LONGEST_KEY ≡ longest_key }
    ensures rank { GREATEST_RANK ≡ greatest_rank }
    ensures derivation { MOST_DERIVATION_BYTES ≡ most_derivation_bytes }
    ensures charge { LARGEST_CHARGE ≡ most_charge }
    ensures line { LONGEST_LINE ≡ longest_line }
{}
