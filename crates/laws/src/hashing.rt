//! Laws of the texts that are hashed.

ghost use Rattle.model.specs.HashedValues.{EachNewValueIsNamed, EachTextNamesAValue, OtherRefusalsHashNothing};

/// No text is hashed for nothing: each is one of two that name a path which the event gives, or without
/// which it would not be found that the event is refused.
pub fn each_text_names_a_value()
    ensures { EachTextNamesAValue }
{}

/// Of an event that is refused with any number but 13, 32, 34, 51 and 52 nothing is hashed.
pub fn other_refusals_hash_nothing()
    ensures { OtherRefusalsHashNothing }
{}

/// No text is missing: what is new on the desks of users after an event is named by texts that are
/// hashed for it, and so are the trees that its reply tells, if no desk had them.
pub fn each_new_value_is_named()
    ensures { EachNewValueIsNamed }
{}
