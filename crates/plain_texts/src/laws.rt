//! What holds of texts and properties, on a function that does nothing.

ghost use Rattle.plain_texts.specs.Texts.{TextsArePlain, TextsDeclareWords};

/// A well-typed property that a text spells declares no name with a digit in front, and few names.
pub fn texts_are_plain()
    ensures { TextsArePlain }
{}

/// What it declares has names of letters, digits and `_`.
pub fn texts_declare_words()
    ensures { TextsDeclareWords }
{}
