//! Laws of derivations and their texts. No program calls them: each is a function with an empty body, whose contract is proved.

ghost use Rattle.aterm.specs.Laws.{DerivationsPass, ReadingIsExact};

/// A derivation passes the test exactly where it is one of the store.
pub fn derivations_pass()
    ensures { DerivationsPass }
{}

/// Each derivation of the store is read from its text and from no other, and nothing else is read.
pub fn reading_is_exact()
    ensures { ReadingIsExact }
{}
