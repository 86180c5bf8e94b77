//! The record actions of a script, which hang on its number.
ghost use Rattle.std.specs.Prelude.{◌≡◌, ◌≤◌, ◌<◌, ◌+◌, ◌*◌, ◌-◌, ◌∷◌, [], IfOk, ℕ};
ghost use Rattle.run_generator.specs.Draws.{drawn, drawn_after};
ghost use Rattle.run_generator.specs.Script.{adds_rows, bundles_of, column, n_from, updates_row};
ghost use Rattle.run_generator.specs.Stages.{AreValues, drawn_before, row_bound};

use crate::requests::column_of_one;
use cell_types::{CellText, CellValue, ValueList};
use doc_model::{IdList, UserAction, UserColumn, UserColumnList};
use std::alloc::{AllocError, Global};

/// How many rows a bundle adds.
pub(crate) const ROWS_AT_ONCE: u32 = 500;

/// The number that is drawn behind this one.
pub(crate) fn next_number(number: u64) -> u64
    requires { number ≤ 2147483648 }
    ensures value { result ≡ drawn_after number }
    ensures few { result ≤ 2147483648 }
{
    (1_103_515_245 * number + 12_345) % 2_147_483_648
}

// The value of N that a number gives.
fn value_of_n(number: u64) -> CellValue
    ensures { result ≡ n_from number }
{
    CellValue::Int((number % 1000) as i64 - 500)
}

/// The values of a bundle of rows, and the number drawn last.
#[derive(Drop)]
struct Values {
    k: Vec<CellValue>,
    n: Vec<CellValue>,
    number: u64,
}

// The values of so many rows. `number` was drawn before those of the first one.
fn draw_values(alloc: Global, count: u32, number: u64) -> Result<Values, AllocError>
    requires { number ≤ 2147483648 }
    ensures made { IfOk result (λ v. (n done : ℕ) → number ≡ drawn n (2 * done)
        → AreValues n done count v.k.items v.n.items v.number) }
    ensures few { IfOk result (λ v. v.number ≤ 2147483648) }
{
    let mut k = Vec::new(alloc);
    let mut n = Vec::new(alloc);
    let mut number = number;
    for _ in 0..count {
        let first = next_number(number);
        number = next_number(first);
        n.push(value_of_n(first))?;
        k.push(CellValue::Int((number % 100) as i64))?;
    }
    Ok(Values { k, n, number })
}

fn column(alloc: Global, id: &str, values: Vec<CellValue>) -> Result<UserColumn, AllocError>
    ensures { IfOk result (λ c. c ≡ column id.now values.items) }
{
    Ok(UserColumn {
        id: CellText::copy_of(alloc, id)?,
        values: ValueList::from(values),
    })
}

/// An action, and the number that was drawn last for it.
#[derive(Drop)]
pub(crate) struct Drawn {
    pub action: UserAction,
    pub number: u64,
}

/// Adds the rows of a bundle, of `rows` in all. `number` was drawn before them.
///
/// Units: bundles are numbered from 0.
pub(crate) fn adds_rows(
    alloc: Global,
    rows: u32,
    bundle: u32,
    number: u64,
) -> Result<Drawn, AllocError>
    requires bound { rows ≤ row_bound }
    requires there { bundle < bundles_of rows }
    requires few { number ≤ 2147483648 }
    requires drawn { number ≡ drawn rows (drawn_before rows bundle) }
    ensures action { IfOk result (λ d. d.action ≡ adds_rows rows bundle) }
    ensures drawn { IfOk result (λ d. d.number ≡ drawn rows (drawn_before rows (bundle + 1))) }
    ensures few { IfOk result (λ d. d.number ≤ 2147483648) }
{
    let count = ROWS_AT_ONCE.min(rows - ROWS_AT_ONCE * bundle);
    let Values { k, n, number } = draw_values(alloc, count, number)?;
    let mut columns = UserColumnList::new(alloc);
    columns.push(column(alloc, "K", k)?)?;
    columns.push(column(alloc, "N", n)?)?;
    let action = UserAction::Add {
        table: CellText::copy_of(alloc, "Work")?,
        single: false,
        count,
        has_row_ids: false,
        columns,
    };
    Ok(Drawn { action, number })
}

/// Updates N of a row. `number` was drawn before.
///
/// Units: rows are numbered from 1.
pub(crate) fn updates_row(
    alloc: Global,
    rows: u32,
    row: u32,
    number: u64,
) -> Result<Drawn, AllocError>
    requires some { 0 < row }
    requires few { number ≤ 2147483648 }
    requires drawn { number ≡ drawn rows (2 * rows + row - 1) }
    ensures action { IfOk result (λ d. d.action ≡ updates_row rows row) }
    ensures drawn { IfOk result (λ d. d.number ≡ drawn rows (2 * rows + row)) }
    ensures few { IfOk result (λ d. d.number ≤ 2147483648) }
{
    let number = next_number(number);
    let mut ids = IdList::new(alloc);
    ids.push(row as i64)?;
    let mut columns = UserColumnList::new(alloc);
    columns.push(column_of_one(alloc, "N", value_of_n(number))?)?;
    let action = UserAction::Update {
        table: CellText::copy_of(alloc, "Work")?,
        single: true,
        rows: ids,
        columns,
    };
    Ok(Drawn { action, number })
}
