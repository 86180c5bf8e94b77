//! Bounds and tests of rows against values from outside. What documents and views are at traps is
//! computed in proofs/Traps.antt.

use crate::actions::x_and_y;
use doc_model::{ColDefList, LimitKind, have_no_duplicates, index_of_column};
use std::alloc::{AllocError, Global};

static BOUNDS: [(LimitKind, u64); 8] = [
    (LimitKind::Actions, 2_000),
    (LimitKind::Sessions, 1_024),
    (LimitKind::Tables, 2_048),
    (LimitKind::Columns, 1_024),
    (LimitKind::Rows, 1_000_000),
    (LimitKind::RowId, 4_294_967_295),
    (LimitKind::Cells, 4_000_000),
    (LimitKind::Weight, 268_435_456),
];

#[test]
fn limits_have_their_bounds(rt: HostRuntime) {
    for row in &BOUNDS {
        assert!(rt; row.0.bound() == row.1, "not {}", row.1);
    }
}

#[test]
fn repeated_rows_are_found_in_any_order(rt: HostRuntime) {
    assert!(rt; have_no_duplicates(&[2, 1, 3]));
    assert!(rt; !have_no_duplicates(&[2, 1, 2]));
}

// Metadata rows, and the indexes of such columns among those of the rows 2 and 5.
static PLACES: [(u32, usize); 5] = [(1, 0), (2, 1), (3, 1), (5, 2), (9, 2)];

fn is_index(columns: &Result<ColDefList, AllocError>, row: u32, index: usize) -> bool {
    match columns {
        Ok(columns) => index_of_column(columns.as_slice(), row) == index,
        Err(_) => false,
    }
}

fn goes_to(alloc: Global, row: u32, index: usize) -> bool {
    is_index(&x_and_y(alloc, 5, 2), row, index)
}

#[test]
fn a_column_goes_before_greater_rows(rt: HostRuntime) {
    for row in &PLACES {
        assert!(rt; goes_to(rt.alloc(), row.0, row.1), "not {}", row.0);
    }
}
