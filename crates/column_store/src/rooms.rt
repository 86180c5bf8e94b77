//! Empty columns with room, for cells that will be moved there.

ghost use Rattle.std.specs.Prelude.{◌≡◌, ◌≤◌, IfOk, length, vec_capacity, vec_len};
ghost use Rattle.column_store.specs.Crossed.{AreRooms};

use cell_types::CellValue;
use std::alloc::{AllocError, Global};

// One such column.
fn room_for(alloc: Global, cells: usize) -> Result<Vec<CellValue>, AllocError>
    ensures len { IfOk result (λ v. vec_len v ≡ 0) }
    ensures room { IfOk result (λ v. cells ≤ vec_capacity v) }
{
    Ok(Vec::with_capacity(alloc, cells)?)
}

/// So many columns, each with room for so many cells.
pub(crate) fn rooms_for(
    alloc: Global,
    columns: usize,
    cells: usize,
) -> Result<Vec<Vec<CellValue>>, AllocError>
    ensures rooms { IfOk result (λ v. AreRooms cells v.items) }
    ensures length { IfOk result (λ v. length v.items ≡ columns) }
{
    let mut rooms = Vec::with_capacity(alloc, columns)?;
    for _column in 0..columns {
        rooms.push(room_for(alloc, cells)?)?;
    }
    Ok(rooms)
}
