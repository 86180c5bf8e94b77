//! Laws over contexts that agree, proved as the contract of a function that does nothing.

ghost use Rattle.agreeing_contexts.specs.AgreementLaws.{DecisionLaw, ReadingLaw};

/// Contexts that agree decide the same of each row and permission, and let the same be read.
pub fn agreement_law()
    ensures reading { ReadingLaw }
    ensures decision { DecisionLaw }
{}
