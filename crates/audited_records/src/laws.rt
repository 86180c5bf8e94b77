//! What rules say of an action on records of a closed user.

ghost use Rattle.audited_records.specs.RecordsLaws.{RecordsLaw};

use rule_contexts::seen_law;

/// Of a closed user the verdict of rules on an action on records rests on the view alone.
pub fn records_law()
    ensures { RecordsLaw }
{
    seen_law();
}
