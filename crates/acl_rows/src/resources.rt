//! Rows of resources.

ghost use Rattle.std.specs.Prelude.{◌≡◌, is_some, IfOk};
ghost use Rattle.acl_rows.specs.GoodRows.{is_good_resource, say_resource};
ghost use Rattle.acl_rules.specs.RuleTexts.{resource_of};

use crate::row_cells::RowCells;
use crate::texts::text_in;
use acl_rules::read_resource;
use cell_types::CellValue;
use std::alloc::{AllocError, Global};

fn is_resource(alloc: Global, table: &str, columns: &str) -> Result<bool, AllocError>
    ensures { IfOk result (λ b. b ≡ is_some (resource_of table.now columns.now)) }
{
    Ok(read_resource(alloc, table, columns)?.is_some())
}

fn say_resource(alloc: Global, table: &CellValue, columns: &CellValue) -> Result<bool, AllocError>
    ensures { IfOk result (λ b. b ≡ say_resource table.now columns.now) }
{
    let Some(table) = text_in(table) else {
        return Ok(false);
    };
    let Some(columns) = text_in(columns) else {
        return Ok(false);
    };
    is_resource(alloc, table, columns)
}

/// Whether the row may stand among the resources.
///
/// Errors: out of memory.
pub fn is_good_resource<R: RowCells>(alloc: Global, row: &R) -> Result<bool, AllocError>
    ensures { IfOk result (λ b. b ≡ is_good_resource (R.told row.now)) }
{
    let table = row.cell(alloc, "tableId")?;
    let columns = row.cell(alloc, "colIds")?;
    say_resource(alloc, &table, &columns)
}
