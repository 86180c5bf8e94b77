//! Records, printed.
ghost use Rattle.std.specs.Prelude.{◌≡◌, true, IfOk};
ghost use Rattle.std.specs.List.{list_all};
ghost use Rattle.grist_json.specs.Json.{IsJson};
ghost use Rattle.grist_json.specs.Reading.{is_whole};
ghost use Rattle.record_lines.specs.Printable.{is_printable};
ghost use Rattle.record_lines.specs.Printed.{kept, record_data, record_text};
ghost use Rattle.record_lines.specs.Records.{SpellsRecord};

use crate::printed::record_value;
use doc_model::DocActionList;
use grist_json::Line;
use std::alloc::{AllocError, Global};

/// Prints a record in its second form: the compact text of its JSON, keys sorted. Where its names,
/// numbers and columns are such as may stand in one, that text spells the record.
///
/// Source: docs/PROTOCOL.md, "records".
pub fn write_record(alloc: Global, number: u64, actions: &DocActionList) -> Result<Line, AllocError>
    ensures text { IfOk result (λ l. l ≡ record_text number actions.now) }
    ensures spells { IfOk result (λ l. IsJson l (record_data number actions.now)) }
    ensures reads_back { IfOk result (λ l.
        is_whole number ≡ true → list_all is_printable actions.now ≡ true
        → SpellsRecord (kept number actions.now) l) }
{
    let value = record_value(alloc, number, actions)?;
    Ok(Line::new(value.to_string(alloc)?))
}
