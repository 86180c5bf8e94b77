//! Numbers of the ids that formula columns have, and of those that they name.

ghost use Rattle.std.specs.Prelude.{◌≡◌, ◌++◌, cond, IfOk, OnOk, List, ℕ, None, Some, map, option_to_list};
ghost use Rattle.std.specs.HashMap.{get_by_text};
ghost use Rattle.std.specs.Option.{option_or};
ghost use Rattle.std.specs.Str.{bytes_eq};
ghost use Rattle.par_recalc.specs.Numbers.{number_of, numbers_named, numbers_of, own_number};

use crate::naming::named_by;
use crate::plan::ColumnFormula;
use cell_types::{Name, Sequence};
use std::alloc::{AllocError, Global};
use std::collections::HashMap;
use std::marker::Model;

/// Numbers in order.
pub(crate) type NumberList = Sequence<usize>;

/// The ids of formula columns by number, which is the first place at which an id stands. It is seen
/// as the columns.
#[derive(Drop)]
pub(crate) struct IdNumbers<'a> {
    formulas: &'a [ColumnFormula],
    numbers: HashMap<String, usize>,
}

impl<'a> Model for IdNumbers<'a> {
    ghost use Rattle.std.specs.Prelude.{List, ℕ, ◌≡◌};
    ghost use Rattle.std.specs.Coded.{codes};
    ghost use Rattle.std.specs.HashMap.{get_by_text};
    ghost use Rattle.formula_parse.specs.contracts.tree.Formula as formula;
    ghost use Rattle.par_recalc.specs.declared.plan.ColumnFormula.{ColumnFormula};
    ghost use Rattle.par_recalc.specs.Numbers.{number_of};

    ghost Value = { List ColumnFormula };

    ghost coded = { Prim.hlevel (codes, formula.the_row.coded) };

    ghost view = { λ n. n.formulas.now };

    ghost invariant = { λ n.
        (id : List ℕ) → get_by_text n.numbers id ≡ number_of n.formulas.now id };
}

// Gives an id the number of a place, where it has none.
fn note_place(
    alloc: Global,
    numbers: &mut HashMap<String, usize>,
    id: &Name,
    place: usize,
) -> Result<(), AllocError>
    ensures { OnOk result ((q : List ℕ) → get_by_text numbers.new q
        ≡ option_or (get_by_text numbers.old q) (cond (bytes_eq id.now q) (Some place) None)) }
{
    if let Some(_number) = numbers.get(id.as_str()) {
        return Ok(());
    }
    let text = String::from_str(alloc, id.as_str())?;
    numbers.insert(text, place)?;
    Ok(())
}

// The number of each id that a column has.
fn numbers_by_id(
    alloc: Global,
    formulas: &[ColumnFormula],
) -> Result<HashMap<String, usize>, AllocError>
    ensures { IfOk result
        (λ numbers. (q : List ℕ) → get_by_text numbers q ≡ number_of formulas.now q) }
{
    let mut numbers = HashMap::new(alloc);
    for place in 0..formulas.len() {
        note_place(alloc, &mut numbers, &formulas[place].column, place)?;
    }
    Ok(numbers)
}

impl<'a> IdNumbers<'a> {
    /// The numbers of the ids of columns.
    ///
    /// Errors: out of memory. Memory: a copy of each id.
    pub fn of(alloc: Global, formulas: &'a [ColumnFormula]) -> Result<IdNumbers<'a>, AllocError>
        ensures { IfOk result (λ numbers. numbers ≡ formulas.now) }
    {
        let numbers = numbers_by_id(alloc, formulas)?;
        Ok(IdNumbers { formulas, numbers })
    }

    /// The number of an id, where a column has it.
    ///
    /// Memory: none.
    pub fn number(&self, id: &Name) -> Option<usize>
        ensures { result ≡ number_of self.now id.now }
    {
        self.numbers.get(id.as_str()).copied()
    }
}

fn push_number(all: &mut NumberList, number: Option<usize>) -> Result<(), AllocError>
    ensures { OnOk result (all.new ≡ all.old ++ option_to_list number) }
{
    if let Some(number) = number {
        all.push(number)?;
    }
    Ok(())
}

// The numbers of ids, of those that have one.
fn numbers_of(
    alloc: Global,
    numbers: &IdNumbers<'_>,
    ids: &[Name],
) -> Result<NumberList, AllocError>
    ensures { IfOk result (λ all. all ≡ numbers_of numbers.now ids.now) }
{
    let mut all = NumberList::new(alloc);
    for id in ids {
        push_number(&mut all, numbers.number(id))?;
    }
    Ok(all)
}

fn numbers_named(
    alloc: Global,
    numbers: &IdNumbers<'_>,
    column: &ColumnFormula,
) -> Result<NumberList, AllocError>
    ensures { IfOk result (λ all. all ≡ numbers_named numbers.now column.now) }
{
    let ids = named_by(alloc, &column.formula)?;
    numbers_of(alloc, numbers, ids.as_slice())
}

/// The numbers of the ids that each column names.
///
/// Errors: out of memory.
pub(crate) fn all_named(
    alloc: Global,
    numbers: &IdNumbers<'_>,
    formulas: &[ColumnFormula],
) -> Result<Vec<NumberList>, AllocError>
    ensures { IfOk result (λ all. all.items ≡ map (numbers_named numbers.now) formulas.now) }
{
    let mut all = Vec::with_capacity(alloc, formulas.len())?;
    for column in formulas {
        all.push(numbers_named(alloc, numbers, column)?)?;
    }
    Ok(all)
}

/// The number of each column's own id.
///
/// Errors: out of memory.
pub(crate) fn own_numbers(
    alloc: Global,
    numbers: &IdNumbers<'_>,
    formulas: &[ColumnFormula],
) -> Result<Vec<Option<usize>>, AllocError>
    ensures { IfOk result (λ own. own.items ≡ map (own_number numbers.now) formulas.now) }
{
    let mut own = Vec::with_capacity(alloc, formulas.len())?;
    for column in formulas {
        own.push(numbers.number(&column.column))?;
    }
    Ok(own)
}
