//! Plan: some thousand random actions done over both stores, a third of them taken back then; after
//! each action, and after it was taken back, both tell the same document, and what is not valid is
//! so to both. Each of the ten actions was done and taken back, those on records also over no rows
//! (`both_stores_tell_the_same`). Out of memory counts as false.

ghost use Rattle.doc_model.specs.DocumentLaws.{IsWhole};

use crate::changes::change;
use crate::draws::Draws;
use crate::kinds::Kinds;
use crate::readers::are_same;
use column_store::ColumnTables;
use doc_actions::{ApplyFault, apply};
use doc_model::laws::new_document_law;
use doc_model::{DocAction, DocTables};
use row_tables::RowTables;
use std::alloc::Global;

// How many actions are drawn. About a third of them is valid.
const DRAWN: u32 = 20_000;

// How many of them are done at least, and how many of each kind are done and taken back.
const LEAST: u32 = 3_000;

const EACH: u32 = 10;

// Whether both stores took the action, or found it not valid; nothing where one of them lacks
// memory, they answer otherwise, or they do not tell the same after it or after it was taken back.
fn play<L: DocTables, R: DocTables>(
    alloc: Global,
    left: &mut L,
    right: &mut R,
    action: &DocAction,
    is_back: bool,
) -> Option<bool>
    requires left { IsWhole (L.document left.old) }
    requires right { IsWhole (R.document right.old) }
    ensures left { IsWhole (L.document left.new) }
    ensures right { IsWhole (R.document right.new) }
{
    match (apply(alloc, left, action), apply(alloc, right, action)) {
        (Ok(one), Ok(other)) => {
            let is_same = are_same(alloc, &*left, &*right);
            if is_back {
                left.take_back(one);
                right.take_back(other);
            }
            (is_same && are_same(alloc, &*left, &*right)).then_some(true)
        }
        (Err(ApplyFault::Invalid), Err(ApplyFault::Invalid)) => Some(false),
        _ => None,
    }
}

// Draws the next action, and notes where it was done; false where that went wrong.
fn is_next_played(
    alloc: Global,
    rows: &mut RowTables,
    columns: &mut ColumnTables,
    draws: &mut Draws,
    kinds: &mut Kinds,
) -> bool
    requires rows { IsWhole rows.old }
    requires columns { IsWhole columns.old }
    ensures rows { IsWhole rows.new }
    ensures columns { IsWhole columns.new }
{
    let is_back = draws.number() % 3 == 0;
    let Ok(action) = change(alloc, draws) else {
        return false;
    };
    match play(alloc, rows, columns, &action, is_back) {
        Some(true) => {
            kinds.note(&action, is_back);
            true
        }
        Some(false) => true,
        None => false,
    }
}

// What was done of the actions that were drawn; nothing where one went wrong.
fn played(alloc: Global, rows: &mut RowTables, columns: &mut ColumnTables) -> Option<Kinds>
    requires rows { IsWhole rows.old }
    requires columns { IsWhole columns.old }
{
    let mut draws = Draws::new(1);
    let mut kinds = Kinds::new();
    for _turn in 0..DRAWN {
        if !is_next_played(alloc, rows, columns, &mut draws, &mut kinds) {
            return None;
        }
    }
    Some(kinds)
}

fn played_from_new(alloc: Global) -> Option<Kinds> {
    new_document_law();
    match (
        RowTables::new_document(alloc),
        ColumnTables::new_document(alloc),
    ) {
        (Ok(mut rows), Ok(mut columns)) => played(alloc, &mut rows, &mut columns),
        _ => None,
    }
}

#[test]
fn both_stores_tell_the_same(rt: HostRuntime) {
    let played = played_from_new(rt.alloc());
    assert!(rt; played.is_some());
    if let Some(kinds) = played {
        assert!(rt; kinds.are_each(EACH));
        assert!(rt; LEAST <= kinds.total());
    }
}
