//! What the checks of an action come to for a closed user.

ghost use Rattle.audited_checks.specs.CheckLaws.{AddedLaw, ChangedLaw, RemovedLaw};

/// Of a closed user the checks of rows that go rest on the view alone, and so do those of rows
/// that are changed or added, where the rows after the action are alike in what is safe.
pub fn checks_laws()
    ensures removed { RemovedLaw }
    ensures changed { ChangedLaw }
    ensures added { AddedLaw }
{}
