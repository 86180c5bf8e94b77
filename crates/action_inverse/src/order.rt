//! The columns of a record action in the order of their ids.

ghost use Rattle.std.specs.Prelude.{◌≡◌, IfOk, MatchResult, OnOk};
ghost use Rattle.action_inverse.specs.Spot.{GoesTo, StandsAt};
ghost use Rattle.doc_model.specs.ByIds.{by_id, put_by_id};
ghost use Rattle.doc_model.specs.Records.{given_id};

use doc_model::CellColumn;
use std::alloc::{AllocError, Global};
use std::cmp::Ordering;

/// The columns in the order of their ids; of those with one id the first.
///
/// Cost: the square of their number, at most.
pub(crate) fn by_id(alloc: Global, columns: Vec<CellColumn>) -> Result<Vec<CellColumn>, AllocError>
    ensures { IfOk result (λ v. v.items ≡ by_id given_id columns.items) }
{
    let mut columns = columns;
    let mut sorted = Vec::with_capacity(alloc, columns.len())?;
    while let Some(column) = columns.pop() {
        put(&mut sorted, column)?;
    }
    Ok(sorted)
}

// Puts a column before the first one with a greater id, in place of one with its id.
fn put(columns: &mut Vec<CellColumn>, column: CellColumn) -> Result<(), AllocError>
    ensures { OnOk result (columns.new.items ≡ put_by_id given_id column columns.old.items) }
{
    match spot(columns, &column) {
        Ok(index) => columns[index] = column,
        Err(index) => columns.insert(index, column)?,
    }
    Ok(())
}

// Where a column with the id stands, or else where the column goes.
fn spot(columns: &[CellColumn], column: &CellColumn) -> Result<usize, usize>
    ensures { MatchResult result (StandsAt columns.now column.now) (GoesTo columns.now column.now) }
{
    for index in 0..columns.len() {
        match column.id.cmp(&columns[index].id) {
            Ordering::Less => return Err(index),
            Ordering::Equal => return Ok(index),
            Ordering::Greater => {}
        }
    }
    Err(columns.len())
}
