//! What is let read of the document's own tables, where there are no rules, and of what is hidden.

ghost use Rattle.acl_reading.specs.Laws.{BareLaw, HiddenLaw, NoRulesLaw, OwnAnswerLaw, OwnLaw, SchemaLaw};

/// The schema tables are hidden from everybody; where there are no rules, owners and editors read
/// all other tables but those of the access rules, which owners read. What the walk of a chain does
/// not show can be read in no row. Where the rules that list a column decide nothing of a cell, or
/// none of them is about reading, it is read as its row is.
pub fn reading_law()
    ensures schema { SchemaLaw }
    ensures no_rules { NoRulesLaw }
    ensures hidden { HiddenLaw }
    ensures bare { BareLaw }
    ensures own { OwnLaw }
    ensures own_answer { OwnAnswerLaw }
{}
