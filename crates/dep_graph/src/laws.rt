//! Laws of numbers of names.

ghost use Rattle.dep_graph.specs.Names.{NumberLaw};

/// The name of a number is found by it, so no two names have one number.
#[tactic(auto, using(crate::proofs::NameLaws::number_there))]
pub fn number_law()
    ensures { NumberLaw }
{}
