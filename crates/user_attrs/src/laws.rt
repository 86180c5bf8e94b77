//! Which row an attribute finds, and what rules get where they ask for attributes.

ghost use Rattle.user_attrs.specs.Laws.{AbsentLaw, FirstLaw, LeastLaw, NullLaw, OwnLaw};

/// An attribute finds the least row, and none in a table or a column that is not there. The user's
/// own fields stay its own; of attributes with one name the first is asked, and one that found no
/// row has null fields.
pub fn attributes_law()
    ensures least { LeastLaw }
    ensures absent { AbsentLaw }
    ensures own { OwnLaw }
    ensures first { FirstLaw }
    ensures null { NullLaw }
{}
