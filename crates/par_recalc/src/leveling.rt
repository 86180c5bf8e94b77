//! The levels of formula columns, found round by round.

ghost use Rattle.std.specs.Prelude.{◌≡◌, ◌++◌, ◌||◌, true, length, map, slice_set, IfOk, OnOk};
ghost use Rattle.std.specs.List.{list_any};
ghost use Rattle.par_recalc.specs.Levels.{AreLevels, marked_anew, one_anew};
ghost use Rattle.par_recalc.specs.Numbers.{numbers_named, own_number};
ghost use Rattle.par_recalc.specs.Rounds.{are_ready, blank, is_waiting, next_marks, round, with_column, with_columns};

use crate::numbers::{IdNumbers, NumberList, all_named, own_numbers};
use crate::plan::{ColumnFormula, FormulaList, LevelPlan};
use std::alloc::{AllocError, Global};

// Marks of no column.
fn blank(alloc: Global, formulas: &[ColumnFormula]) -> Result<Vec<bool>, AllocError>
    ensures { IfOk result (λ v. v.items ≡ blank formulas.now) }
{
    let mut marks = Vec::with_capacity(alloc, formulas.len())?;
    for _column in formulas {
        marks.push(false)?;
    }
    Ok(marks)
}

#[tactic(auto, using(crate::proofs::NumberLemmas::same_past))]
fn set_waiting(waiting: &mut [bool], number: usize)
    ensures { waiting.new ≡ slice_set waiting.old number true }
{
    if number < waiting.len() {
        waiting[number] = true;
    }
}

// Tells that a column waits, by the number of its id, where it is not marked.
fn with_column(waiting: &mut [bool], own: Option<usize>, mark: bool)
    ensures { waiting.new ≡ with_column waiting.old own mark }
{
    if mark {
        return;
    }
    let Some(number) = own else {
        return;
    };
    set_waiting(waiting, number);
}

// The same of all columns.
fn with_columns(waiting: &mut [bool], own: &[Option<usize>], before: &[bool])
    requires { length before.now ≡ length own.now }
    ensures { waiting.new ≡ with_columns waiting.old own.now before.now }
{
    for place in 0..own.len() {
        with_column(waiting, own[place], before[place]);
    }
}

fn is_waiting(waiting: &[bool], number: usize) -> bool
    ensures { result ≡ is_waiting waiting.now number }
{
    match waiting.get(number) {
        Some(is_waiting) => *is_waiting,
        None => false,
    }
}

fn is_any_waiting(waiting: &[bool], numbers: &[usize]) -> bool
    ensures { result ≡ list_any (is_waiting waiting.now) numbers.now }
{
    numbers.iter().any(|number| is_waiting(waiting, *number))
}

// Whether no column with one of these ids is unmarked.
fn are_ready(waiting: &[bool], numbers: &NumberList) -> bool
    ensures { result ≡ are_ready waiting.now numbers.now }
{
    !is_any_waiting(waiting, numbers.as_slice())
}

// Whether a column is marked after one round more.
fn is_marked(waiting: &[bool], numbers: &NumberList, mark: bool) -> bool
    ensures { result ≡ (mark || are_ready waiting.now numbers.now) }
{
    mark || are_ready(waiting, numbers)
}

// The marks after one round more.
fn next_marks(
    alloc: Global,
    waiting: &[bool],
    all: &[NumberList],
    before: &[bool],
) -> Result<Vec<bool>, AllocError>
    requires { length all.now ≡ length before.now }
    ensures { IfOk result (λ v. v.items ≡ next_marks waiting.now all.now before.now) }
{
    let mut next = Vec::with_capacity(alloc, before.len())?;
    for place in 0..before.len() {
        next.push(is_marked(waiting, &all[place], before[place]))?;
    }
    Ok(next)
}

// One round.
fn round(
    alloc: Global,
    formulas: &[ColumnFormula],
    own: &[Option<usize>],
    all: &[NumberList],
    before: &[bool],
) -> Result<Vec<bool>, AllocError>
    requires own { length before.now ≡ length own.now }
    requires all { length all.now ≡ length before.now }
    ensures { IfOk result (λ v. v.items ≡ round formulas.now own.now all.now before.now) }
{
    let mut waiting = blank(alloc, formulas)?;
    with_columns(&mut waiting, own, before);
    next_marks(alloc, &waiting, all, before)
}

// Adds a place that is marked now and was not before.
fn push_anew(
    places: &mut Vec<usize>,
    place: usize,
    before: bool,
    after: bool,
) -> Result<(), AllocError>
    ensures { OnOk result (places.new.items ≡ places.old.items ++ one_anew place before after) }
{
    if after && !before {
        places.push(place)?;
    }
    Ok(())
}

// The places that are marked now and were not before.
fn marked_anew(alloc: Global, before: &[bool], after: &[bool]) -> Result<Vec<usize>, AllocError>
    requires { length after.now ≡ length before.now }
    ensures { IfOk result (λ v. v.items ≡ marked_anew 0 before.now after.now) }
{
    let mut places = Vec::new(alloc);
    for place in 0..before.len() {
        push_anew(&mut places, place, before[place], after[place])?;
    }
    Ok(places)
}

// The levels, round by round until one marks none anew.
fn all_levels(
    alloc: Global,
    formulas: &[ColumnFormula],
    own: &[Option<usize>],
    all: &[NumberList],
) -> Result<Vec<Vec<usize>>, AllocError>
    requires own { own.now ≡ map (own_number formulas.now) formulas.now }
    requires all { all.now ≡ map (numbers_named formulas.now) formulas.now }
    ensures { IfOk result (λ v. AreLevels formulas.now (map (λ l. l.items) v.items)) }
{
    let mut levels = Vec::new(alloc);
    let mut before = blank(alloc, formulas)?;
    'rounds: loop {
        let after = round(alloc, formulas, own, all, &before)?;
        let places = marked_anew(alloc, &before, &after)?;
        if places.is_empty() {
            return Ok(levels);
        }
        levels.push(places)?;
        before = after;
    }
}

/// The levels of formula columns: level 0 has those that name none, each other level those that
/// name one of the level before and none that has no level or a later one. A column has no level
/// where naming leads from it into a cycle.
///
/// Errors: out of memory.
/// Memory: a number for each id that stands in a formula, and three marks for each column.
/// Cost: for each level, linear in the columns and the ids that they name.
pub fn levels(alloc: Global, formulas: &FormulaList) -> Result<LevelPlan<'_>, AllocError>
    ensures formulas { IfOk result (λ plan. plan.formulas ≡ formulas.now) }
    ensures levels { IfOk result (λ plan. AreLevels formulas.now plan.levels) }
{
    let formulas = formulas.as_slice();
    let numbers = IdNumbers::of(alloc, formulas)?;
    let own = own_numbers(alloc, &numbers, formulas)?;
    let all = all_named(alloc, &numbers, formulas)?;
    let levels = all_levels(alloc, formulas, &own, &all)?;
    Ok(LevelPlan { formulas, levels })
}
