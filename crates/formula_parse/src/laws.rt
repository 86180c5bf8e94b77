//! A law over the formulas of texts.

ghost use Rattle.formula_parse.specs.FormulaOf.{FormulaLaw};

/// The tree that a text spells is the one that the machines of the lexer and the parser give.
pub fn formula_law()
    ensures { FormulaLaw }
{}
