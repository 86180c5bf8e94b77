//! The plan. A reader that is asked for a cell of the first half of the rows sets a mark and waits
//! for the mark of the other half, up to a limit of turns, and takes its own mark away where it
//! gives up; so of the second half. One thread alone would come to the second half with no mark
//! there. `attempts_of_a_column_run_on_two_threads` asks that both halves met; `a_level_is_run` has
//! the attempts of a level of two columns over three rows.

ghost use Rattle.std.specs.Prelude.{◌≡◌, ◌∷◌, [], Some};

use crate::columns::{Texts, columns_of};
use cell_types::{CellValue, ColType, KeyList, Name};
use formula_eval::{CellReader, CellSource, Matching, Reading, scan};
use par_recalc::{CellAttempt, Found, attempt_rows, levels, run_level};
use std::alloc::{AllocError, Global};
use std::sync::atomic::{AtomicBool, Ordering};
use std::thread;
use std::thread::Threads;

const ROWS: u32 = 8_192;

const TURNS: u32 = 4_000_000;

static FEW: [u32; 3] = [1, 2, 3];

// A half of the rows: whether it waits or has met the other, whether it began, whether it met.
#[derive(Drop)]
struct Half {
    mark: AtomicBool,
    began: AtomicBool,
    met: AtomicBool,
}

impl Half {
    fn new() -> Half {
        Half {
            mark: AtomicBool::new(false),
            began: AtomicBool::new(false),
            met: AtomicBool::new(false),
        }
    }

    // The first of the half waits for the other's mark.
    fn meet(&self, other: &Half) {
        if self.began.swap(true, Ordering::SeqCst) {
            return;
        }
        self.mark.store(true, Ordering::SeqCst);
        for _turn in 0..TURNS {
            if other.mark.load(Ordering::SeqCst) {
                self.met.store(true, Ordering::SeqCst);
                return;
            }
            thread::yield_now();
        }
        self.mark.store(false, Ordering::SeqCst);
    }
}

// Tells one value of each cell, and three rows of each table.
#[derive(Drop)]
struct Meeting {
    ty: ColType,
    value: CellValue,
    first: Half,
    second: Half,
}

impl CellSource for Meeting {
    ghost use Rattle.std.specs.Prelude.{◌∷◌, [], Some};
    ghost use Rattle.formula_eval.specs.Reader.{known};

    ghost told = { λ meeting. record {
      kind = λ t c. Some meeting.ty;
      rows = λ t. Some (1 ∷ 2 ∷ 3 ∷ []);
      cell = λ d. known meeting.value;
    } };

    fn ty(&self, _table: &Name, _column: &Name) -> Option<&ColType> {
        Some(&self.ty)
    }

    fn rows(&self, _table: &Name) -> Option<&[u32]> {
        Some(&FEW)
    }

    fn cell(&self, _table: &Name, _column: &Name, row: u32) -> Reading<'_> {
        if row <= ROWS / 2 {
            self.first.meet(&self.second);
        } else {
            self.second.meet(&self.first);
        }
        Reading::Known(&self.value)
    }
}

impl CellReader for Meeting {
    fn matching(
        &self,
        alloc: Global,
        table: &Name,
        keys: &KeyList,
    ) -> Result<Matching, AllocError> {
        scan(alloc, self, table, keys)
    }
}

fn new_meeting() -> Meeting {
    Meeting {
        ty: ColType::Any,
        value: CellValue::Int(1),
        first: Half::new(),
        second: Half::new(),
    }
}

fn each_row(alloc: Global) -> Result<Vec<u32>, AllocError> {
    let mut rows = Vec::new(alloc);
    for row in 1..=ROWS {
        rows.push(row)?;
    }
    Ok(rows)
}

fn is_value(attempt: &CellAttempt) -> bool {
    match &attempt.found {
        Found::Value { .. } => true,
        Found::Need(_) => false,
    }
}

fn are_values(found: &[CellAttempt]) -> bool {
    found.iter().all(|attempt| is_value(attempt))
}

// Whether both halves met, and each row has a value.
fn have_met<T: Threads + Sync>(rt: &T, alloc: Global) -> Result<bool, AllocError> {
    let given: [Texts; 1] = [("T", "B", "$A + 1")];
    let columns = columns_of(alloc, &given)?;
    let Some(column) = columns.as_slice().first() else {
        return Err(AllocError);
    };
    let rows = each_row(alloc)?;
    let reader = new_meeting();
    let found = attempt_rows(rt, alloc, column, &rows, &reader)?;
    Ok(
        found.len() == ROWS as usize
            && are_values(&found)
            && reader.first.met.load(Ordering::SeqCst)
            && reader.second.met.load(Ordering::SeqCst),
    )
}

#[test]
fn attempts_of_a_column_run_on_two_threads(rt: HostRuntime) {
    let is_met = match have_met(&rt, rt.alloc()) {
        Ok(is_met) => is_met,
        Err(_) => false,
    };
    assert!(rt; is_met);
}

fn is_row(attempt: &CellAttempt, column: &str, row: u32) -> bool {
    attempt.cell.column.as_str() == column && attempt.cell.row == row && is_value(attempt)
}

// Whether a level's attempts come column after column, and by rows. Both halves are told to have
// begun, so that none waits.
fn is_run<T: Threads + Sync>(rt: &T, alloc: Global) -> Result<bool, AllocError> {
    let given: [Texts; 3] = [("T", "B", "$A"), ("T", "C", "$B"), ("T", "D", "$A + 1")];
    let columns = columns_of(alloc, &given)?;
    let plan = levels(alloc, &columns)?;
    let reader = new_meeting();
    reader.first.began.store(true, Ordering::SeqCst);
    if plan.count() != 2 {
        return Ok(false);
    }
    let list = run_level(rt, alloc, &plan, 0, &reader)?;
    let found = list.as_slice();
    let wanted = [
        ("B", 1u32),
        ("B", 2),
        ("B", 3),
        ("D", 1),
        ("D", 2),
        ("D", 3),
    ];
    if found.len() != 6 {
        return Ok(false);
    }
    for place in 0..6 {
        if !is_row(&found[place], wanted[place].0, wanted[place].1) {
            return Ok(false);
        }
    }
    Ok(true)
}

#[test]
fn a_level_is_run(rt: HostRuntime) {
    let holds = match is_run(&rt, rt.alloc()) {
        Ok(holds) => holds,
        Err(_) => false,
    };
    assert!(rt; holds);
}
