//! The law of names.

ghost use Rattle.name_laws.specs.Texts.{NamesAreTexts};

/// The law that each name of a design that elaboration gives is UTF-8, where the source was read from a text and the parameters of
/// the top are from -2^62 to 2^62. Computes nothing.
pub fn names_are_texts()
    ensures { NamesAreTexts }
{}
