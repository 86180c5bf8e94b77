//! Rows found by the values of their cells: a column of one cell of each kind, and for each value
//! that is looked up the rows of its bucket.

use crate::samples::{Part, Sample, value_of};
use Part::{Bool, Date, Int, Null, Rec, Text};
use Sample::{List, One};
use lookup_index::{LookupIndex, bucket_of};
use std::alloc::{AllocError, Global};

// Row 1 and the following ones.
const CELLS: [Sample; 8] = [
    One(Int(7)),
    One(Bool(true)),
    One(Text("a longer text than a number")),
    One(Rec("Pets", 7)),
    One(Int(1)),
    One(Text("a longer text than a name")),
    One(Int(i64::MIN)),
    List(&[Int(1), Null, Bool(false)]),
];

const LOOKED_UP: [(Sample, &[u32]); 7] = [
    (One(Int(7)), &[1, 4]),
    (One(Bool(true)), &[2, 5]),
    (One(Text("a longer text than a number")), &[3]),
    (One(Text("another text")), &[]),
    (One(Int(i64::MIN)), &[7]),
    (List(&[Bool(true), Null, Int(0)]), &[8]),
    (One(Date(86_400)), &[]),
];

fn index_of(alloc: Global) -> Result<LookupIndex, AllocError> {
    let mut index = LookupIndex::new(alloc);
    let mut row = 1;
    for cell in &CELLS {
        let value = value_of(alloc, *cell)?;
        index.insert(alloc, bucket_of(&value), row)?;
        row = row.saturating_add(1);
    }
    Ok(index)
}

fn are_found(
    alloc: Global,
    index: &LookupIndex,
    looked_up: Sample,
    rows: &[u32],
) -> Result<bool, AllocError> {
    let value = value_of(alloc, looked_up)?;
    Ok(index.rows_for(bucket_of(&value)) == rows)
}

fn finds(alloc: Global, looked_up: Sample, rows: &[u32]) -> bool {
    let Ok(index) = index_of(alloc) else {
        return false;
    };
    are_found(alloc, &index, looked_up, rows) == Ok(true)
}

#[test]
fn finds_the_rows_of_equal_values(rt: HostRuntime) {
    for row in &LOOKED_UP {
        assert!(rt; finds(rt.alloc(), row.0, row.1), "not {}", row.1.len());
    }
}
