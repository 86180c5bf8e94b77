//! What verdicts on the actions of a closed user rest on.

ghost use Rattle.audited_verdicts.specs.AuditLaw.{AuditLaw};
ghost use Rattle.audited_verdicts.specs.ClosedLaw.{ClosedLaw};
ghost use Rattle.audited_verdicts.specs.SchemaActionsLaw.{SchemaActionsLaw};

use audited_columns::columns_law;
use audited_records::records_law;

/// An audit says `Closed` where it finds no fault, and nowhere else.
pub fn closed_law()
    ensures { ClosedLaw }
{}

/// Of a closed user the verdict of rules on an action on tables or columns rests on the view alone.
pub fn schema_actions_law()
    ensures { SchemaActionsLaw }
{
    columns_law();
}

/// Of a closed user the verdict on a bundle of one action rests on the view alone, limits aside.
pub fn audit_law()
    ensures { AuditLaw }
{
    records_law();
    schema_actions_law();
}
