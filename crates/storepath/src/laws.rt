//! Laws of store paths. No program calls them: each is a function with an empty body, whose contract is proved.

ghost use Rattle.storepath.specs.Laws.{PathsDiffer, PathsPass};

/// One path is of one text and one name, whatever it is the path of, where no two of the texts that are hashed have one folded digest.
pub fn paths_differ()
    ensures { PathsDiffer }
{}

/// A text passes the test of a path exactly where it is a path's.
pub fn paths_pass()
    ensures { PathsPass }
{}
