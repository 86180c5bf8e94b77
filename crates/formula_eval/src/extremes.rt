//! The least and the greatest of values.

ghost use Rattle.std.specs.Prelude.{◌≡◌, ◌∷◌, [], None, Some};
ghost use Rattle.formula_eval.specs.Run.{out_of};
ghost use Rattle.formula_eval.specs.Function.{better, dates_in, extreme_of, item_dates, item_numbers, numbers_in, picked};
ghost use Rattle.formula_eval.specs.Halted.{IsOut};

use crate::halt::Halt;
use cell_types::{CellItem, CellValue, ErrKind};

/// MAX, or MIN.
pub(crate) fn extreme(values: &[CellValue], most: bool) -> Result<CellValue, Halt>
    ensures { IsOut result (out_of (extreme_of most values.now)) }
{
    match (best_number(values, most), best_date(values, most)) {
        (None, None) => Ok(CellValue::Int(0)),
        (Some(number), None) => Ok(CellValue::Int(number)),
        (None, Some(seconds)) => Ok(CellValue::Date(seconds)),
        (Some(_), Some(_)) => Err(Halt::Raised(ErrKind::WrongType)),
    }
}

fn picked(left: i64, right: i64, most: bool) -> i64
    ensures { result ≡ picked most left right }
{
    if most {
        left.max(right)
    } else {
        left.min(right)
    }
}

fn better(best: Option<i64>, number: i64, most: bool) -> i64
    ensures { Some result ≡ better most best (number ∷ []) }
{
    match best {
        Some(best) => picked(best, number, most),
        None => number,
    }
}

// The extreme of the numbers among values.
#[tactic(auto, using(crate::proofs::BestLemmas::number_left))]
fn best_number(values: &[CellValue], most: bool) -> Option<i64>
    ensures { result ≡ better most None (numbers_in values.now) }
{
    let mut best = None;
    for value in values {
        best = number_with_value(best, value, most);
    }
    best
}

#[tactic(auto, using(crate::proofs::BestLemmas::better_items))]
fn number_with_value(best: Option<i64>, value: &CellValue, most: bool) -> Option<i64>
    ensures { result ≡ better most best (numbers_in (value.now ∷ [])) }
{
    match value {
        CellValue::Int(number) => Some(better(best, *number, most)),
        CellValue::List(items) => number_with_items(best, items.as_slice(), most),
        _ => best,
    }
}

fn number_with_items(best: Option<i64>, items: &[CellItem], most: bool) -> Option<i64>
    ensures { result ≡ better most best (item_numbers items.now) }
{
    let mut best = best;
    for item in items {
        if let CellItem::Int(number) = item {
            best = Some(better(best, *number, most));
        }
    }
    best
}

// The extreme of the dates among values.
#[tactic(auto, using(crate::proofs::BestLemmas::date_left))]
fn best_date(values: &[CellValue], most: bool) -> Option<i64>
    ensures { result ≡ better most None (dates_in values.now) }
{
    let mut best = None;
    for value in values {
        best = date_with_value(best, value, most);
    }
    best
}

#[tactic(auto, using(crate::proofs::BestLemmas::better_items))]
fn date_with_value(best: Option<i64>, value: &CellValue, most: bool) -> Option<i64>
    ensures { result ≡ better most best (dates_in (value.now ∷ [])) }
{
    match value {
        CellValue::Date(number) => Some(better(best, *number, most)),
        CellValue::List(items) => date_with_items(best, items.as_slice(), most),
        _ => best,
    }
}

fn date_with_items(best: Option<i64>, items: &[CellItem], most: bool) -> Option<i64>
    ensures { result ≡ better most best (item_dates items.now) }
{
    let mut best = best;
    for item in items {
        if let CellItem::Date(number) = item {
            best = Some(better(best, *number, most));
        }
    }
    best
}
