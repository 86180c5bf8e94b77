//! Texts and lists put down on a desk.

ghost use Rattle.std.specs.Prelude.{◌≡◌, ◌≤◌, ◌<◌, ◌+◌, Some, IfSome, take, length, option_map};
ghost use Rattle.acl_formula.specs.Desk.{between, items_in, seen};
ghost use Rattle.acl_formula.specs.DeskRules.{IsGood, StartsAt, IsDown, AreGood, end_of};
ghost use Rattle.acl_formula.specs.DeskText.{is_item};
ghost use Rattle.acl_formula.specs.RuleValue.{item_list};

use crate::operand::{Operand, Part, end_of, single};

// A text or a list is put down, where it was not joined. Says where its parts end.
pub(crate) fn put_down<'a>(desk: &mut [Part<'a>], value: Operand<'a>, at: usize) -> usize
    requires good { IsGood desk.old value }
    requires starts { StartsAt at value }
    requires room { at < length desk.old }
    ensures kept { take at desk.new ≡ take at desk.old }
    ensures length { length desk.new ≡ length desk.old }
    ensures good { IsGood desk.new value.entry }
    ensures same { seen desk.new value.entry ≡ seen desk.old value.entry }
    ensures down { IsDown desk.new at result value.entry }
    ensures from { at ≤ result }
    ensures end { result ≤ end_of at value.entry + 1 }
{
    match value {
        Operand::Text(_) | Operand::List(_) => {
            desk[at] = single(value);
            at + 1
        }
        Operand::Joined(_, to, _) | Operand::Listed(_, to, _) => to,
        _ => at,
    }
}

// Whether a value may be an item of a list.
fn is_item(value: Operand<'_>) -> bool
    ensures { result ≡ is_item value.entry }
{
    match value {
        Operand::Set(_) | Operand::List(_) | Operand::Listed(..) | Operand::Censored => false,
        _ => true,
    }
}

// An item of a list is put down behind what it is made of. Says where it ends, if it is one.
pub(crate) fn put_item<'a>(desk: &mut [Part<'a>], value: Operand<'a>, at: usize) -> Option<usize>
    requires good { IsGood desk.old value }
    requires starts { StartsAt at value }
    requires room { end_of at value < length desk.old }
    ensures kept { take at desk.new ≡ take at desk.old }
    ensures length { length desk.new ≡ length desk.old }
    ensures item { option_map (λ end. items_in desk.new (between at end desk.new)) result
        ≡ item_list (Some (seen desk.old value.entry)) }
    ensures good { IfSome result (λ end. AreGood desk.new end (between at end desk.new)) }
    ensures end { IfSome result (λ end. (at < end) × (end ≤ end_of at value.entry + 1)) }
{
    if !is_item(value) {
        return None;
    }
    let place = end_of(at, value);
    desk[place] = Part::Item(value);
    Some(place + 1)
}
