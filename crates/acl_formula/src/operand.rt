//! Values of the parts of a rule's formula, where they lie.

ghost use Rattle.std.specs.Prelude.{◌≡◌, ◌≤◌, ◌<◌, ◌+◌, ◌∷◌, [], List, ℕ, Option, Some, None, IfSome, MatchOption, option_map, take, length};
ghost use Rattle.std.specs.Borrow.{Bor};
ghost use Rattle.cell_types.specs.declared.value.CellItem.{CellItem};
ghost use Rattle.cell_types.specs.Item.{value_of_item};
ghost use Rattle.value_ops.specs.Numbers.{number_of};
ghost use Rattle.value_ops.specs.Truth.{truth_of};
ghost use Rattle.acl_formula.specs.Desk.{between, joined, items_in, seen, lent};
ghost use Rattle.acl_formula.specs.DeskRules.{IsGood, IsLent, StartsAt, end_of, IsDown, AreGood};
ghost use Rattle.acl_formula.specs.DeskText.{text_in, list_in, ShowsText, ShowsList};
ghost use Rattle.acl_formula.specs.RuleFields.{readable};
ghost use Rattle.acl_formula.specs.declared.operand.Operand.TheVariants as operand;
ghost use Rattle.acl_formula.specs.declared.operand.Part.TheVariants as part;

use cell_types::{CellItem, CellValue, RowRef, RowSet};

/// The value of a part of a rule's formula. What is large is lent by a cell or by the formula, and
/// what `+` or brackets made is a range of a desk.
#[derive(Clone, Copy)]
pub(crate) enum Operand<'a> {
    Null,
    Int(i64),
    Bool(bool),
    Date(i64),
    Rec(&'a RowRef),
    Set(&'a RowSet),
    Text(&'a str),
    /// A text in pieces: from one place up to another, and how many bytes it has.
    Joined(usize, usize, usize),
    List(&'a [CellItem]),
    /// A list in parts: from one place up to another, and how many items it has.
    Listed(usize, usize, usize),
    Censored,
}

/// What lies at a place of a desk. The pieces among the parts of a list belong to texts in it.
#[derive(Clone, Copy)]
pub(crate) enum Part<'a> {
    /// A piece of a text.
    Piece(&'a str),
    /// An item of a list.
    Item(Operand<'a>),
    /// Items of a list that follow one another.
    Items(&'a [CellItem]),
}

/// A text or a list in parts, and how many bytes or items it has.
#[derive(Clone, Copy)]
pub(crate) struct Parts<'t, 'a> {
    pub parts: &'t [Part<'a>],
    pub len: usize,
}

// A cell that is read; reading an error fails.
pub(crate) fn operand_of<'a>(cell: &'a CellValue) -> Option<Operand<'a>>
    ensures value { option_map lent result ≡ readable cell.now }
    ensures lent { IfSome result IsLent }
{
    match cell {
        CellValue::Null => Some(Operand::Null),
        CellValue::Int(number) => Some(Operand::Int(*number)),
        CellValue::Bool(truth) => Some(Operand::Bool(*truth)),
        CellValue::Text(text) => Some(Operand::Text(text.as_str())),
        CellValue::Date(seconds) => Some(Operand::Date(*seconds)),
        CellValue::Rec(row) => Some(Operand::Rec(row)),
        CellValue::RecSet(set) => Some(Operand::Set(set)),
        CellValue::List(items) => Some(Operand::List(items.as_slice())),
        CellValue::Err(_) => None,
        CellValue::Censored => Some(Operand::Censored),
    }
}

// An item of a list as a value.
pub(crate) fn operand_of_item<'a>(item: &'a CellItem) -> Operand<'a>
    ensures value { lent result ≡ value_of_item item.now }
    ensures lent { IsLent result }
{
    match item {
        CellItem::Null => Operand::Null,
        CellItem::Int(number) => Operand::Int(*number),
        CellItem::Bool(truth) => Operand::Bool(*truth),
        CellItem::Text(text) => Operand::Text(text.as_str()),
        CellItem::Date(seconds) => Operand::Date(*seconds),
        CellItem::Rec(row) => Operand::Rec(row),
    }
}

// The number that a value is, where it is one. The desk is there for what the clause says.
pub(crate) fn number(desk: &[Part<'_>], value: Operand<'_>) -> Option<i64>
    ensures { result ≡ number_of (seen desk.now value.entry) }
{
    match value {
        Operand::Int(number) => Some(number),
        Operand::Bool(truth) => Some(i64::from(truth)),
        _ => None,
    }
}

// Whether the value is true.
pub(crate) fn truth(desk: &[Part<'_>], value: Operand<'_>) -> bool
    requires { IsGood desk.now value }
    ensures { result ≡ truth_of (seen desk.now value.entry) }
{
    match value {
        Operand::Null => false,
        Operand::Int(number) => number != 0,
        Operand::Bool(truth) => truth,
        Operand::Rec(row) => row.row != 0,
        Operand::Set(set) => !set.rows.is_empty(),
        Operand::Text(text) => !text.is_empty(),
        Operand::List(items) => !items.is_empty(),
        Operand::Joined(_, _, len) | Operand::Listed(_, _, len) => len != 0,
        Operand::Date(_) | Operand::Censored => true,
    }
}

// Where the parts of a value end.
pub(crate) fn end_of(at: usize, value: Operand<'_>) -> usize
    ensures { result ≡ end_of at value.entry }
{
    match value {
        Operand::Joined(_, to, _) | Operand::Listed(_, to, _) => to,
        _ => at,
    }
}

// A text or list that was not joined, as its only part.
pub(crate) fn single<'a>(value: Operand<'a>) -> Part<'a>
    ensures text { (t : Bor (List ℕ)) → value.entry ≡ operand.Text t → result ≡ part.Piece t }
    ensures list { (is : Bor (List CellItem))
        → value.entry ≡ operand.List is
        → result ≡ part.Items is }
{
    match value {
        Operand::Text(text) => Part::Piece(text),
        Operand::List(items) => Part::Items(items),
        _ => Part::Piece(""),
    }
}

// The text of a value in pieces, where it is one; one that was not joined is its own piece.
pub(crate) fn text_parts<'t, 'a>(
    desk: &'t [Part<'a>],
    own: &'t [Part<'a>],
    value: Operand<'a>,
) -> Option<Parts<'t, 'a>>
    requires own { (t : Bor (List ℕ)) → value ≡ operand.Text t → own.now ≡ part.Piece t ∷ [] }
    requires good { IsGood desk.now value }
    ensures { MatchOption result
        (text_in desk.now value.entry ≡ None)
        (λ p. ShowsText p.parts.now p.len (text_in desk.now value.entry)) }
{
    match value {
        Operand::Text(text) => Some(Parts {
            parts: own,
            len: text.len(),
        }),
        Operand::Joined(from, to, len) => Some(Parts {
            parts: &desk[from..to],
            len,
        }),
        _ => None,
    }
}

// The list of a value in parts, where it is one; one that was not joined is its own part.
#[tactic(auto, using(crate::proofs::DeskLemmas::good_more))]
pub(crate) fn list_parts<'t, 'a>(
    desk: &'t [Part<'a>],
    own: &'t [Part<'a>],
    value: Operand<'a>,
) -> Option<Parts<'t, 'a>>
    requires own { (is : Bor (List CellItem))
        → value ≡ operand.List is
        → own.now ≡ part.Items is ∷ [] }
    requires good { IsGood desk.now value }
    ensures { MatchOption result
        (list_in desk.now value.entry ≡ None)
        (λ p. ShowsList desk.now p.parts.now p.len (list_in desk.now value.entry)) }
{
    match value {
        Operand::List(items) => Some(Parts {
            parts: own,
            len: items.len(),
        }),
        Operand::Listed(from, to, len) => Some(Parts {
            parts: &desk[from..to],
            len,
        }),
        _ => None,
    }
}
