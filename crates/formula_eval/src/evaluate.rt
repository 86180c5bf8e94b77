//! The value of a formula.

ghost use Rattle.std.specs.Prelude.{◌≡◌, ◌≤◌, ◌<◌, pos, map, length, get_or, IfOk, MatchOption};
ghost use Rattle.formula_parse.specs.Tree.{from_list, keys_from};
ghost use Rattle.value_ops.specs.Numbers.{in_64_bits};
ghost use Rattle.value_ops.specs.Truth.{truth_of};
ghost use Rattle.formula_eval.specs.Run.{or_else, out_of, collect};
ghost use Rattle.formula_eval.specs.Attribute.{as_item, attribute_of, field_of};
ghost use Rattle.formula_eval.specs.Operator.{combined, chosen, operated, prefixed, turned};
ghost use Rattle.formula_eval.specs.Eval.{count_of, ev, ev_arguments, ev_each, ev_key, ev_keys, form_of, forms_of, is_containing};
ghost use Rattle.formula_eval.specs.Function.{function_of, applied};
ghost use Rattle.formula_eval.specs.Call.{argument, called, counted, run_function};
ghost use Rattle.formula_eval.specs.Lookup.{columns_of, given, item_run, item_runs, looked_up};
ghost use Rattle.formula_eval.specs.Halted.{Comes, ComesAs, IsOut, WithRight};

use crate::attribute::{attribute, item_of, list_value, record_attribute};
use crate::call::{applied, takes};
use crate::function::{Function, function_of};
use crate::halt::Halt;
use crate::lookup::{all_rows, found, open};
use crate::operator::{constant_value, is_decided, operated, prefixed};
use crate::{CellReader, NoteKeeper};
use cell_types::{CellItem, CellText, CellValue, ErrKind, KeyItem, KeyList, Name, RowRef};
use formula_parse::{
    ArgumentList, BinaryOp, Formula, LookupKey, LookupKeyList, LookupKind, Node, PrefixOp,
};
use std::alloc::Global;
use value_ops::truth;

fn number_value(number: u64) -> Result<CellValue, Halt>
    ensures { IsOut result (out_of (in_64_bits (pos number))) }
{
    match i64::try_from(number) {
        Ok(number) => Ok(CellValue::Int(number)),
        Err(_) => Err(Halt::Raised(ErrKind::Overflow)),
    }
}

/// The value of a formula in a row.
#[cycle(evaluate)]
pub(crate) fn value_of<R: CellReader, N: NoteKeeper>(
    alloc: Global,
    reader: &R,
    at: &RowRef,
    formula: &Formula,
    notes: &mut N,
) -> Result<CellValue, Halt>
    ensures { Comes result (N.noted notes.old) (N.noted notes.new)
        (ev (R.told reader.now) at.now formula.now) }
{
    match formula.node() {
        Node::Number(number) => number_value(*number),
        Node::Text(text) => Ok(CellValue::Text(text.clone()?)),
        Node::Constant(constant) => constant_value(at, *constant),
        Node::Dollar(column) => record_attribute(alloc, reader, column, at, notes),
        Node::Binary(op, left, right) => binary(alloc, reader, at, *op, left, right, notes),
        Node::Prefix(op, inner) => prefix(alloc, reader, at, *op, inner, notes),
        Node::Conditional(value, test, other) => {
            conditional(alloc, reader, at, value, test, other, notes)
        }
        Node::Parentheses(inner) => value_of(alloc, reader, at, inner, notes),
        Node::List(items) => list_value(items_of(alloc, reader, at, items, notes)?),
        Node::Call(name, arguments) => call(alloc, reader, at, name, arguments, notes),
        Node::Attribute(inner, name) => field(alloc, reader, at, inner, name, notes),
        Node::All(table) => all_rows(alloc, reader, table, notes),
        Node::Lookup(kind, table, keys) => { lookup(alloc, reader, at, *kind, table, keys, notes) }
        Node::Rule(_) => Err(Halt::Raised(ErrKind::Syntax)),
    }
}

// An operator between two operands.
#[cycle(evaluate)]
fn binary<R: CellReader, N: NoteKeeper>(
    alloc: Global,
    reader: &R,
    at: &RowRef,
    op: BinaryOp,
    left: &Formula,
    right: &Formula,
    notes: &mut N,
) -> Result<CellValue, Halt>
    ensures { Comes result (N.noted notes.old) (N.noted notes.new)
        (combined op (ev (R.told reader.now) at.now left.now)
        (ev (R.told reader.now) at.now right.now)) }
{
    let left = value_of(alloc, reader, at, left, notes)?;
    if is_decided(op, &left) {
        return Ok(left);
    }
    let right = value_of(alloc, reader, at, right, notes);
    with_right(alloc, op, left, right)
}

fn with_right(
    alloc: Global,
    op: BinaryOp,
    left: CellValue,
    right: Result<CellValue, Halt>,
) -> Result<CellValue, Halt>
    ensures { WithRight result right (operated op left) }
{
    let right = right?;
    match op {
        BinaryOp::Or | BinaryOp::And => Ok(right),
        _ => operated(alloc, op, &left, &right),
    }
}

// An operator in front of its operand.
#[cycle(evaluate)]
fn prefix<R: CellReader, N: NoteKeeper>(
    alloc: Global,
    reader: &R,
    at: &RowRef,
    op: PrefixOp,
    inner: &Formula,
    notes: &mut N,
) -> Result<CellValue, Halt>
    ensures { Comes result (N.noted notes.old) (N.noted notes.new)
        (turned op (ev (R.told reader.now) at.now inner.now)) }
{
    let value = value_of(alloc, reader, at, inner, notes)?;
    prefixed(op, &value)
}

// One of two values, by the truth of a third.
#[cycle(evaluate)]
fn conditional<R: CellReader, N: NoteKeeper>(
    alloc: Global,
    reader: &R,
    at: &RowRef,
    value: &Formula,
    test: &Formula,
    other: &Formula,
    notes: &mut N,
) -> Result<CellValue, Halt>
    ensures { Comes result (N.noted notes.old) (N.noted notes.new)
        (chosen (ev (R.told reader.now) at.now test.now)
        (ev (R.told reader.now) at.now value.now) (ev (R.told reader.now) at.now other.now)) }
{
    let test = value_of(alloc, reader, at, test, notes)?;
    if is_true(test) {
        value_of(alloc, reader, at, value, notes)
    } else {
        value_of(alloc, reader, at, other, notes)
    }
}

fn is_true(value: CellValue) -> bool
    ensures { result ≡ truth_of value }
{
    truth(&value)
}

// An attribute of a value.
#[cycle(evaluate)]
fn field<R: CellReader, N: NoteKeeper>(
    alloc: Global,
    reader: &R,
    at: &RowRef,
    inner: &Formula,
    name: &Name,
    notes: &mut N,
) -> Result<CellValue, Halt>
    ensures { Comes result (N.noted notes.old) (N.noted notes.new)
        (field_of (R.told reader.now) name.now (ev (R.told reader.now) at.now inner.now)) }
{
    let value = value_of(alloc, reader, at, inner, notes)?;
    attribute(alloc, reader, name, &value, notes)
}

// The items of a list.
#[cycle(evaluate)]
fn items_of<R: CellReader, N: NoteKeeper>(
    alloc: Global,
    reader: &R,
    at: &RowRef,
    arguments: &ArgumentList,
    notes: &mut N,
) -> Result<Vec<CellItem>, Halt>
    ensures { ComesAs (λ v. v.items) result (N.noted notes.old) (N.noted notes.new)
        (collect (map as_item (ev_each (R.told reader.now) at.now (from_list arguments.now)))) }
{
    let mut items = Vec::new(alloc);
    for formula in arguments.as_slice() {
        let item = item(alloc, reader, at, formula, notes)?;
        items.push(item)?;
    }
    Ok(items)
}

// A formula's value as an item of a list.
#[cycle(evaluate)]
fn item<R: CellReader, N: NoteKeeper>(
    alloc: Global,
    reader: &R,
    at: &RowRef,
    formula: &Formula,
    notes: &mut N,
) -> Result<CellItem, Halt>
    ensures { ComesAs (λ i. i) result (N.noted notes.old) (N.noted notes.new)
        (as_item (ev (R.told reader.now) at.now formula.now)) }
{
    item_of(value_of(alloc, reader, at, formula, notes)?)
}

// The values of arguments.
#[cycle(evaluate)]
fn values_of<R: CellReader, N: NoteKeeper>(
    alloc: Global,
    reader: &R,
    at: &RowRef,
    arguments: &ArgumentList,
    notes: &mut N,
) -> Result<Vec<CellValue>, Halt>
    ensures { ComesAs (λ v. v.items) result (N.noted notes.old) (N.noted notes.new)
        (collect (ev_each (R.told reader.now) at.now (from_list arguments.now))) }
{
    let mut values = Vec::new(alloc);
    for formula in arguments.as_slice() {
        let value = value_of(alloc, reader, at, formula, notes)?;
        values.push(value)?;
    }
    Ok(values)
}

// The value of the argument at a place, or else the empty text.
#[cycle(evaluate)]
fn argument_at<R: CellReader, N: NoteKeeper>(
    alloc: Global,
    reader: &R,
    at: &RowRef,
    arguments: &ArgumentList,
    place: usize,
    notes: &mut N,
) -> Result<CellValue, Halt>
    ensures { Comes result (N.noted notes.old) (N.noted notes.new)
        (argument (ev_each (R.told reader.now) at.now (from_list arguments.now)) place) }
{
    match formula_at(arguments, place) {
        Some(formula) => value_of(alloc, reader, at, formula, notes),
        None => Ok(CellValue::Text(CellText::empty())),
    }
}

fn formula_at(arguments: &ArgumentList, place: usize) -> Option<&Formula>
    ensures { MatchOption result
        (length arguments.now ≤ place)
        (λ f. (place < length arguments.now) × (f.now ≡ get_or arguments.now place f.now)) }
{
    arguments.as_slice().get(place)
}

// A call of a function.
#[cycle(evaluate)]
fn call<R: CellReader, N: NoteKeeper>(
    alloc: Global,
    reader: &R,
    at: &RowRef,
    name: &Name,
    arguments: &ArgumentList,
    notes: &mut N,
) -> Result<CellValue, Halt>
    ensures { Comes result (N.noted notes.old) (N.noted notes.new)
        (called (function_of name.now) (count_of (from_list arguments.now))
        (ev_each (R.told reader.now) at.now (from_list arguments.now))) }
{
    let Some(function) = function_of(name.as_str()) else {
        return Err(Halt::Raised(ErrKind::Name));
    };
    if !takes(function, arguments.as_slice().len()) {
        return Err(Halt::Raised(ErrKind::WrongType));
    }
    run(alloc, reader, at, function, arguments, notes)
}

// A call with the right count of arguments.
#[cycle(evaluate)]
fn run<R: CellReader, N: NoteKeeper>(
    alloc: Global,
    reader: &R,
    at: &RowRef,
    function: Function,
    arguments: &ArgumentList,
    notes: &mut N,
) -> Result<CellValue, Halt>
    ensures { Comes result (N.noted notes.old) (N.noted notes.new)
        (run_function function (ev_each (R.told reader.now) at.now (from_list arguments.now))) }
{
    match function {
        Function::If => choice(alloc, reader, at, arguments, notes),
        Function::IfError => caught(alloc, reader, at, arguments, notes),
        _ => {
            let values = values_of(alloc, reader, at, arguments, notes)?;
            applied(alloc, function, &values)
        }
    }
}

// IF.
#[cycle(evaluate)]
fn choice<R: CellReader, N: NoteKeeper>(
    alloc: Global,
    reader: &R,
    at: &RowRef,
    arguments: &ArgumentList,
    notes: &mut N,
) -> Result<CellValue, Halt>
    ensures { Comes result (N.noted notes.old) (N.noted notes.new)
        (chosen (argument (ev_each (R.told reader.now) at.now (from_list arguments.now)) 0)
        (argument (ev_each (R.told reader.now) at.now (from_list arguments.now)) 1)
        (argument (ev_each (R.told reader.now) at.now (from_list arguments.now)) 2)) }
{
    let test = argument_at(alloc, reader, at, arguments, 0, notes)?;
    if is_true(test) {
        argument_at(alloc, reader, at, arguments, 1, notes)
    } else {
        argument_at(alloc, reader, at, arguments, 2, notes)
    }
}

// IFERROR.
#[cycle(evaluate)]
fn caught<R: CellReader, N: NoteKeeper>(
    alloc: Global,
    reader: &R,
    at: &RowRef,
    arguments: &ArgumentList,
    notes: &mut N,
) -> Result<CellValue, Halt>
    ensures { Comes result (N.noted notes.old) (N.noted notes.new)
        (or_else (argument (ev_each (R.told reader.now) at.now (from_list arguments.now)) 0)
        (argument (ev_each (R.told reader.now) at.now (from_list arguments.now)) 1)) }
{
    match argument_at(alloc, reader, at, arguments, 0, notes) {
        Err(Halt::Raised(_)) => argument_at(alloc, reader, at, arguments, 1, notes),
        tried => tried,
    }
}

// A lookup.
#[cycle(evaluate)]
fn lookup<R: CellReader, N: NoteKeeper>(
    alloc: Global,
    reader: &R,
    at: &RowRef,
    kind: LookupKind,
    table: &Name,
    keys: &LookupKeyList,
    notes: &mut N,
) -> Result<CellValue, Halt>
    ensures { Comes result (N.noted notes.old) (N.noted notes.new)
        (given kind table.now
        (looked_up (R.told reader.now) table.now (forms_of (keys_from keys.now))
        (ev_keys (R.told reader.now) at.now (keys_from keys.now)))) }
{
    open(reader, table, keys, notes)?;
    match key_items(alloc, reader, at, keys, notes) {
        Ok(items) => found(alloc, reader, kind, table, items, notes),
        Err(halt) => Err(halt),
    }
}

// The keys with their values.
#[cycle(evaluate)]
fn key_items<R: CellReader, N: NoteKeeper>(
    alloc: Global,
    reader: &R,
    at: &RowRef,
    keys: &LookupKeyList,
    notes: &mut N,
) -> Result<KeyList, Halt>
    ensures { ComesAs (λ l. l) result (N.noted notes.old) (N.noted notes.new)
        (collect (item_runs (forms_of (keys_from keys.now))
        (ev_keys (R.told reader.now) at.now (keys_from keys.now)))) }
{
    let mut items = Vec::new(alloc);
    for key in keys.as_slice() {
        let item = key_item(alloc, reader, at, key, notes)?;
        items.push(item)?;
    }
    Ok(KeyList::from(items))
}

// A key with its value.
#[cycle(evaluate)]
fn key_item<R: CellReader, N: NoteKeeper>(
    alloc: Global,
    reader: &R,
    at: &RowRef,
    key: &LookupKey,
    notes: &mut N,
) -> Result<KeyItem, Halt>
    ensures { ComesAs (λ k. k) result (N.noted notes.old) (N.noted notes.new)
        (item_run (form_of key.now.name key.now.value)
        (ev_key (R.told reader.now) at.now key.now.value)) }
{
    let column = key.name.clone()?;
    let contains = is_containing(&key.value);
    match key_value(alloc, reader, at, &key.value, notes) {
        Ok(value) => Ok(KeyItem {
            column,
            value,
            contains,
        }),
        Err(halt) => {
            drop(column);
            Err(halt)
        }
    }
}

// The value of a key.
#[cycle(evaluate)]
fn key_value<R: CellReader, N: NoteKeeper>(
    alloc: Global,
    reader: &R,
    at: &RowRef,
    formula: &Formula,
    notes: &mut N,
) -> Result<CellValue, Halt>
    ensures { Comes result (N.noted notes.old) (N.noted notes.new)
        (ev_key (R.told reader.now) at.now formula.now) }
{
    if is_containing(formula) {
        contained(alloc, reader, at, formula, notes)
    } else {
        value_of(alloc, reader, at, formula, notes)
    }
}

// The value of the first argument of a call.
#[cycle(evaluate)]
fn contained<R: CellReader, N: NoteKeeper>(
    alloc: Global,
    reader: &R,
    at: &RowRef,
    formula: &Formula,
    notes: &mut N,
) -> Result<CellValue, Halt>
    ensures { Comes result (N.noted notes.old) (N.noted notes.new)
        (argument (ev_arguments (R.told reader.now) at.now formula.now) 0) }
{
    match formula.node() {
        Node::Call(_, arguments) => argument_at(alloc, reader, at, arguments, 0, notes),
        _ => Ok(CellValue::Text(CellText::empty())),
    }
}

// Whether the expression of a key is a call of CONTAINS with one argument.
#[tactic(auto, unfolding(crate::specs::Eval::contains_word), using(crate::proofs::Items::count_of_from_list))]
fn is_containing(formula: &Formula) -> bool
    ensures { result ≡ is_containing formula.now }
{
    match formula.node() {
        Node::Call(name, arguments) => {
            name.as_str() == "CONTAINS" && arguments.as_slice().len() == 1
        }
        _ => false,
    }
}
