//! What bundles by which a column is renamed make of a document.

ghost use Rattle.renaming_bundles.specs.AskedTexts.{ExpandedTextsLaw};

/// A rename and actions that ask for other formulas make documents with a column under a new name.
pub fn expanded_texts_law()
    ensures { ExpandedTextsLaw }
{}
