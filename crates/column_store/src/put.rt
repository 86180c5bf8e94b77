//! What an action makes of all tables, and what takes it back.

ghost use Rattle.std.specs.Prelude.{◌≡◌, true, false, IfOk, OnErr, OnOk};
ghost use Rattle.doc_model.specs.Apply.{apply};
ghost use Rattle.doc_model.specs.DocumentLaws.{IsWhole};
ghost use Rattle.doc_model.specs.Valid.{valid};
ghost use Rattle.column_store.specs.Back.{has_index, put_back};
ghost use Rattle.row_tables.specs.Steps.{is_record};
ghost use Rattle.column_store.specs.Schema.{adds_table};

use crate::change::Change;
use crate::plain_change::{PlainChange, change_plain, take_plain_back};
use crate::schema::{
    SchemaChange, SchemaTables, schema_tables, swap_schema, tell_schema, told_of, untell_schema,
};
use crate::steps::{index_of_table, is_record, table_named};
use crate::table::ColumnTable;
use doc_model::DocAction;
use std::alloc::AllocError;

/// What takes an action back: the change of the table at its place, or the schema tables before it
/// and the change of the plain tables.
#[derive(Drop)]
pub(crate) enum Replaced {
    Changed {
        index: usize,
        change: Change,
    },
    Schema {
        schema: SchemaTables,
        change: PlainChange,
    },
    Told {
        schema: SchemaChange,
        change: PlainChange,
    },
}

/// Takes an action back.
///
/// Memory: none.
pub(crate) fn put_back(tables: &mut Vec<ColumnTable>, replaced: Replaced)
    requires { has_index replaced tables.old.items }
    ensures { tables.new.items ≡ put_back replaced tables.old.items }
{
    match replaced {
        Replaced::Schema { schema, change } => {
            let _after = swap_schema(tables, schema);
            take_plain_back(tables, change);
        }
        Replaced::Told { schema, change } => {
            untell_schema(tables, schema);
            take_plain_back(tables, change);
        }
        Replaced::Changed { index, change } => {
            if index < tables.len() {
                tables[index].take_back(change);
            }
        }
    }
}

// Applies a schema action: changes the plain tables, and then makes the schema tables anew, which
// describe them; where memory is wanting, the plain tables are changed back.
fn schema_put(
    tables: &mut Vec<ColumnTable>,
    guess: Option<usize>,
    action: &DocAction,
) -> Result<Replaced, AllocError>
    requires whole { IsWhole tables.old.items }
    requires valid { valid tables.old.items action.now ≡ true }
    requires schema { is_record action.now ≡ false }
    ensures done { OnOk result (tables.new.items ≡ apply tables.old.items action.now) }
    ensures back { IfOk result (λ replaced. put_back replaced tables.new.items ≡ tables.old.items) }
    ensures fit { IfOk result (λ replaced. has_index replaced tables.new.items) }
    ensures err { OnErr result (tables.new.items ≡ tables.old.items) }
{
    let change = change_plain(tables, guess, action)?;
    match schema_tables(tables) {
        Ok(after) => {
            let schema = swap_schema(tables, after);
            Ok(Replaced::Schema { schema, change })
        }
        Err(error) => {
            take_plain_back(tables, change);
            Err(error)
        }
    }
}

// Adds a table, and tells the schema tables of it in their places; where memory is wanting, the
// table goes again.
fn table_put(
    tables: &mut Vec<ColumnTable>,
    guess: Option<usize>,
    action: &DocAction,
) -> Result<Replaced, AllocError>
    requires whole { IsWhole tables.old.items }
    requires valid { valid tables.old.items action.now ≡ true }
    requires adds { adds_table action.now ≡ true }
    ensures done { OnOk result (tables.new.items ≡ apply tables.old.items action.now) }
    ensures back { IfOk result (λ replaced. put_back replaced tables.new.items ≡ tables.old.items) }
    ensures fit { IfOk result (λ replaced. has_index replaced tables.new.items) }
    ensures err { OnErr result (tables.new.items ≡ tables.old.items) }
{
    let told = told_of(*tables.allocator(), action)?;
    let change = change_plain(tables, guess, action)?;
    match tell_schema(tables, told) {
        Ok(schema) => Ok(Replaced::Told { schema, change }),
        Err(error) => {
            take_plain_back(tables, change);
            Err(error)
        }
    }
}

// Whether the action adds a table.
fn adds_table(action: &DocAction) -> bool
    ensures { result ≡ adds_table action.now }
{
    matches!(action, DocAction::AddTable { .. })
}

// Applies a record action, in place of the table that it names.
fn record_put(
    tables: &mut Vec<ColumnTable>,
    guess: Option<usize>,
    action: &DocAction,
) -> Result<Replaced, AllocError>
    requires whole { IsWhole tables.old.items }
    requires valid { valid tables.old.items action.now ≡ true }
    requires record { is_record action.now ≡ true }
    ensures done { OnOk result (tables.new.items ≡ apply tables.old.items action.now) }
    ensures back { IfOk result (λ replaced. put_back replaced tables.new.items ≡ tables.old.items) }
    ensures fit { IfOk result (λ replaced. has_index replaced tables.new.items) }
    ensures err { OnErr result (tables.new.items ≡ tables.old.items) }
{
    let Some(index) = index_of_table(tables, guess, table_named(action)) else {
        unreachable!()
    };
    let change = tables[index].put(action)?;
    Ok(Replaced::Changed { index, change })
}

/// Applies an action. The table that it names is looked for at a guess first.
///
/// Errors: out of memory; all tables are then as they were.
pub(crate) fn action_put(
    tables: &mut Vec<ColumnTable>,
    guess: Option<usize>,
    action: &DocAction,
) -> Result<Replaced, AllocError>
    requires whole { IsWhole tables.old.items }
    requires valid { valid tables.old.items action.now ≡ true }
    ensures done { OnOk result (tables.new.items ≡ apply tables.old.items action.now) }
    ensures back { IfOk result (λ replaced. put_back replaced tables.new.items ≡ tables.old.items) }
    ensures fit { IfOk result (λ replaced. has_index replaced tables.new.items) }
    ensures err { OnErr result (tables.new.items ≡ tables.old.items) }
{
    if is_record(action) {
        record_put(tables, guess, action)
    } else if adds_table(action) {
        table_put(tables, guess, action)
    } else {
        schema_put(tables, guess, action)
    }
}
