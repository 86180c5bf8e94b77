//! The plan: formula columns of which it is told by hand in which level they stand.
//! `levels_go_by_names` has columns that name none, one, their own one, one of another table, one
//! as the key of a lookup, and two that name each other beside a third that names one of them.

ghost use Rattle.std.specs.Prelude.{◌<◌, length};

use crate::columns::{Texts, columns_of};
use par_recalc::{LevelPlan, levels};
use std::alloc::{AllocError, Global};

static COLUMNS: [Texts; 9] = [
    ("T", "A0", "$X"),
    ("T", "A1", "$A0 + 1"),
    ("T", "A2", "$X * 2"),
    ("T", "A3", "$A3"),
    ("U", "B", "rec.R.A1"),
    ("U", "C", "len(T.lookupRecords(A0=1))"),
    ("U", "D", "$E"),
    ("U", "E", "$D"),
    ("U", "F", "$E + $X"),
];

static FIRST: [usize; 2] = [0, 2];

static SECOND: [usize; 2] = [1, 5];

static THIRD: [usize; 1] = [4];

fn has_places(plan: &LevelPlan<'_>, level: usize, wanted: &[usize]) -> bool
    requires { level < length plan.now.levels }
{
    plan.places(level) == wanted
}

// Whether the columns stand in these three levels.
fn have_levels(alloc: Global) -> Result<bool, AllocError> {
    let columns = columns_of(alloc, &COLUMNS)?;
    let plan = levels(alloc, &columns)?;
    if plan.count() != 3 {
        return Ok(false);
    }
    Ok(
        has_places(&plan, 0, &FIRST)
            && has_places(&plan, 1, &SECOND)
            && has_places(&plan, 2, &THIRD),
    )
}

#[test]
fn levels_go_by_names(rt: HostRuntime) {
    let holds = match have_levels(rt.alloc()) {
        Ok(holds) => holds,
        Err(_) => false,
    };
    assert!(rt; holds);
}
