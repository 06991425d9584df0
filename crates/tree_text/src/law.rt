//! A law of tree texts.

ghost use Rattle.tree_text.specs.Laws.{TextsDiffer};

/// Two trees have different tree texts.
///
/// No program calls this: it states the law, which its proof shows.
pub fn texts_differ()
    ensures { TextsDiffer }
{}
