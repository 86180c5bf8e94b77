//! Lists in parts that follow one another, compared where they lie.

ghost use Rattle.std.specs.Prelude.{◌≡◌, ◌<◌, ◌≤◌, length, get_or};
ghost use Rattle.std.specs.Cmp.Lexicographic.{pointwise};
ghost use Rattle.cell_types.specs.Item.{value_of_item};
ghost use Rattle.cell_types.specs.declared.value.CellItem.TheVariants as item;
ghost use Rattle.value_ops.specs.Equality.{is_equal_item};
ghost use Rattle.value_ops.specs.Containment.{is_among};
ghost use Rattle.acl_formula.specs.Desk.{seen, items_in, items_of_part};
ghost use Rattle.acl_formula.specs.DeskRules.{IsGood, IsGoodPart, AreGood};

use crate::equality::equal_but_lists;
use crate::operand::{Operand, Part, operand_of_item};
use cell_types::CellItem;

// The item at a place of the list.
#[tactic(auto, using(crate::proofs::ItemLemmas::seen_item, crate::proofs::ItemLemmas::good_item, crate::proofs::ItemLemmas::seen_lent))]
pub(crate) fn item_at<'a>(desk: &[Part<'a>], parts: &[Part<'a>], place: usize) -> Operand<'a>
    requires place { place < length (items_in desk.now parts.now) }
    requires good { AreGood desk.now (length desk.now) parts.now }
    ensures value { seen desk.now result
        ≡ value_of_item (get_or (items_in desk.now parts.now) place item.Null) }
    ensures good { IsGood desk.now result }
{
    let mut left = place;
    for part in parts {
        match part {
            Part::Piece(_) => {}
            Part::Item(value) => {
                if left == 0 {
                    return *value;
                }
                left -= 1;
            }
            Part::Items(items) => {
                if left < items.len() {
                    return operand_of_item(&items[left]);
                }
                left -= items.len();
            }
        }
    }
    unreachable!()
}

// Whether two lists of as many items are equal, item by item.
pub(crate) fn equal_items<'a>(
    desk: &[Part<'a>],
    left: &[Part<'a>],
    right: &[Part<'a>],
    len: usize,
) -> bool
    requires left { len ≡ length (items_in desk.now left.now) }
    requires right { len ≡ length (items_in desk.now right.now) }
    requires good_left { AreGood desk.now (length desk.now) left.now }
    requires good_right { AreGood desk.now (length desk.now) right.now }
    ensures { result ≡ pointwise is_equal_item
        (items_in desk.now left.now)
        (items_in desk.now right.now) }
{
    for place in 0..len {
        let (a, b) = (item_at(desk, left, place), item_at(desk, right, place));
        if !equal_but_lists(desk, a, b) {
            return false;
        }
    }
    true
}

// Whether a value is among items of a list that is kept elsewhere.
#[tactic(auto, using(crate::proofs::ItemLemmas::equal_to_item, crate::proofs::ItemLemmas::seen_lent))]
fn is_among_items(desk: &[Part<'_>], value: Operand<'_>, items: &[CellItem]) -> bool
    requires { IsGood desk.now value }
    ensures { result ≡ is_among (seen desk.now value.entry) items.now }
{
    for item in items {
        if equal_but_lists(desk, value, operand_of_item(item)) {
            return true;
        }
    }
    false
}

#[tactic(auto, using(crate::proofs::ItemLemmas::equal_to_item, crate::proofs::ItemLemmas::seen_item, crate::proofs::ItemLemmas::good_item))]
fn is_in_part(desk: &[Part<'_>], value: Operand<'_>, part: Part<'_>) -> bool
    requires value { IsGood desk.now value }
    requires part { IsGoodPart desk.now (length desk.now) part }
    ensures { result ≡ is_among (seen desk.now value.entry) (items_of_part desk.now part.entry) }
{
    match part {
        Part::Piece(_) => false,
        Part::Item(item) => equal_but_lists(desk, value, item),
        Part::Items(items) => is_among_items(desk, value, items),
    }
}

// Whether a value is an item of the list.
pub(crate) fn is_among(desk: &[Part<'_>], value: Operand<'_>, parts: &[Part<'_>]) -> bool
    requires value { IsGood desk.now value }
    requires parts { AreGood desk.now (length desk.now) parts.now }
    ensures { result ≡ is_among (seen desk.now value.entry) (items_in desk.now parts.now) }
{
    for part in parts {
        if is_in_part(desk, value, *part) {
            return true;
        }
    }
    false
}
