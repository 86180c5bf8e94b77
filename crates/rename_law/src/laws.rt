//! What renames through formulas and rules keep.

ghost use Rattle.rename_law.specs.Judged.{JudgedLaw};
ghost use Rattle.rename_law.specs.KeepsAll.{RenameLaw};

use planned_renames::planned_values_law;
use renamed_rules::{moved_filling_law, renamed_decision_law};

/// The steps of a bundle that is accepted are those of its actions, one behind the other.
pub fn judged_law()
    ensures { JudgedLaw }
{}

/// A rename with nothing unresolved keeps all values, and where rules follow all decisions.
pub fn rename_law()
    ensures { RenameLaw }
{
    planned_values_law();
    moved_filling_law();
    renamed_decision_law();
}
