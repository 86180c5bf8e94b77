//! Laws of names that are replaced.

ghost use Rattle.rename_texts.specs.Laws.{AllowedLaw, HeightLaw, LexemeLaw, StandsLaw, WrittenLaw};
ghost use Rattle.rename_texts.specs.Respelled.{RespellLaw};
ghost use Rattle.rename_texts.specs.Texts.{RewrittenFormulaLaw, RewrittenLaw, TextLaw};

/// The marked lexemes of a tree are those of the tree, and with the marked names replaced they are
/// those of the renamed tree, which is as high, of the grammar, and has names that are allowed.
pub fn rename_laws()
    ensures written { WrittenLaw }
    ensures lexemes { LexemeLaw }
    ensures height { HeightLaw }
    ensures stands { StandsLaw }
    ensures allowed { AllowedLaw }
{}

/// A text in which new names stand in the places of some of its tokens is spelled by these tokens
/// with the new names.
pub fn respell_law()
    ensures { RespellLaw }
{}

/// A text that spells a tree, with the new name in the marked places, spells the renamed tree.
pub fn text_law()
    ensures { TextLaw }
{}

/// What `rewrite` makes of a text with the marks of its tree spells the renamed tree, as it has to
/// where the new name is one and the text does not get too long.
pub fn rewritten_law()
    ensures spells { RewrittenLaw }
    ensures formula { RewrittenFormulaLaw }
{}
