//! Laws of settling and substitution.

ghost use Rattle.model.specs.Laws.{PuttingIsByMap, SettlingIsBySet};

/// What a tree is settled to depends on which candidates for its references there are, and not on
/// the order in which they are listed, nor on how often one is.
pub fn settling_is_by_set()
    ensures { SettlingIsBySet }
{}

/// What images put depends on which keys there are and on the image of each, and not on the order in
/// which they are listed, nor on how often one is: of two for one key the first counts.
pub fn putting_is_by_map()
    ensures { PuttingIsByMap }
{}
