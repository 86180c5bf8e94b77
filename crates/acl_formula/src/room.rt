//! How many places a rule's evaluation needs for the texts and lists that it joins.

ghost use Rattle.std.specs.Prelude.{◌≡◌, ◌≤◌};
ghost use Rattle.formula_parse.specs.Tree.{from_list};
ghost use Rattle.acl_formula.specs.Room.{room, items_room, put_down, most_room};

use formula_parse::{ArgumentList, BinaryOp, Formula, Node};

/// How many places any rule needs at most: its text has no more bytes.
pub(crate) const MOST_ROOM: usize = 4096;

fn put_down(op: BinaryOp) -> usize
    ensures { result ≡ put_down op }
{
    match op {
        BinaryOp::Add => 2,
        _ => 0,
    }
}

/// The room that a formula needs.
#[cycle(room)]
pub(crate) fn room_of(formula: &Formula) -> usize
    requires { room formula.now ≤ most_room }
    ensures { result ≡ room formula.now }
{
    match formula.node() {
        Node::Binary(op, left, right) => room_of(left) + room_of(right) + put_down(*op),
        Node::Prefix(_, inner) | Node::Parentheses(inner) => room_of(inner),
        Node::List(items) => items_room(items),
        _ => 0,
    }
}

#[cycle(room)]
fn items_room(items: &ArgumentList) -> usize
    requires { items_room (from_list items.now) ≤ most_room }
    ensures { result ≡ items_room (from_list items.now) }
{
    let mut room = 0;
    for item in items.as_slice() {
        room += room_of(item) + 1;
    }
    room
}
