//! What holds of texts that are numbers. The function does nothing: it is there for its clause.

ghost use Rattle.json_values.specs.Texts.{NumberTextsAreTokens};

/// A text is a number exactly where it is one of the languages' texts, without a width.
pub fn number_texts_are_tokens()
    ensures { NumberTextsAreTokens }
{}
