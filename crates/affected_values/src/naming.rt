//! Cells that were found by numbers, by name.

ghost use Rattle.std.specs.Prelude.{◌≡◌, ◌⊎◌, Some, true, IfOk, IfSome, OnOk};
ghost use Rattle.cell_types.specs.declared.cell.CellId.{CellId};
ghost use Rattle.dep_graph.specs.Sources.{cell_in};
ghost use Rattle.recalc.specs.Stack.{on};
ghost use Rattle.affected_search.specs.Sheets.{is_found};

use affected_search::AffectedCells;
use cell_types::CellId;
use dep_graph::{CellNumber, DepGraph};
use recalc::cell_id;
use std::alloc::{AllocError, Global};

// The cell of a number, where there is one.
fn cell_of_number(graph: &DepGraph, number: CellNumber) -> Result<Option<CellId>, AllocError>
    ensures cell { IfOk result
        (λ o. (c : CellId) → cell_in graph.now.names c ≡ Some number → o ≡ Some c) }
    ensures number { IfOk result
        (λ o. IfSome o (λ c. cell_in graph.now.names c ≡ Some number)) }
{
    let Some(table) = graph.name(number.column.table) else {
        return Ok(None);
    };
    let Some(column) = graph.name(number.column.column) else {
        return Ok(None);
    };
    Ok(Some(cell_id(table, column, number.row)?))
}

// Puts the cell of a number last, where there is one.
fn push_named(
    named: &mut Vec<CellId>,
    graph: &DepGraph,
    number: CellNumber,
) -> Result<(), AllocError>
    ensures stays { OnOk result
        ((c : CellId) → on named.old.items c ≡ true → on named.new.items c ≡ true) }
    ensures named { OnOk result ((c : CellId) → cell_in graph.now.names c ≡ Some number
        → on named.new.items c ≡ true) }
    ensures only { OnOk result ((c : CellId) → on named.new.items c ≡ true
        → (on named.old.items c ≡ true) ⊎ (cell_in graph.now.names c ≡ Some number)) }
{
    if let Some(cell) = cell_of_number(graph, number)? {
        named.push(cell)?;
    }
    Ok(())
}

/// The cells that were found, by name, and no others, the first one last: whoever takes them from
/// the end takes them in the order in which they were found.
///
/// Errors: out of memory. Memory: the cells. Cost: linear in the cells.
pub fn named_cells(
    alloc: Global,
    graph: &DepGraph,
    found: &AffectedCells,
) -> Result<Vec<CellId>, AllocError>
    ensures found { IfOk result (λ v. (c : CellId) → is_found graph.now found.now c ≡ true
        → on v.items c ≡ true) }
    ensures only { IfOk result (λ v. (c : CellId) → on v.items c ≡ true
        → is_found graph.now found.now c ≡ true) }
{
    let mut named = Vec::new(alloc);
    let cells = found.cells();
    for number in cells {
        push_named(&mut named, graph, *number)?;
    }
    // Most need only cells that were found before them, so few then wait for others.
    named.reverse();
    Ok(named)
}
