//! What the actions of a bundle created, and what is told of it.

ghost use Rattle.std.specs.Prelude.{◌≡◌, [], map, true, IfOk};
ghost use Rattle.doc_model.specs.DocumentLaws.{IsWhole};
ghost use Rattle.doc_model.specs.LaidOut.{IsLaidOut};
ghost use Rattle.user_actions.specs.Allowed.{is_allowed};
ghost use Rattle.user_actions.specs.StepLaws.{action_of};
ghost use Rattle.censored_view.specs.View.{view};
ghost use Rattle.bundle_judge.specs.Created.{is_single, created_alone, created_by, created_of, records_created, row_told, told_of};

use cell_types::{Name, RowList};
use censored_view::{Lets, is_column_seen, is_row_seen, is_table_seen};
use doc_model::{
    DocAction, DocReader, DocTables, RetIdList, RetValue, RetValueList, Step, UserAction,
};
use name_rules::name_of;
use std::alloc::{AllocError, Global};

/// What one user action created, under the ids as it left them: nothing, a record, records, a
/// table, or a column.
#[derive(Drop)]
pub enum Created {
    Nothing,
    Record { table: Name, row: u32 },
    Records { table: Name, rows: RowList },
    Table(Name),
    Column { table: Name, column: Name },
}

fn is_single(action: &UserAction) -> bool
    ensures { result ≡ is_single action.now }
{
    match action {
        UserAction::Add { single, .. } => *single,
        _ => false,
    }
}

fn table_created(table: &Name) -> Result<Created, AllocError>
    ensures { IfOk result (λ m. m ≡ Created.Table table.now) }
{
    Ok(Created::Table(table.clone()?))
}

fn column_created(table: &Name, column: &Name) -> Result<Created, AllocError>
    ensures { IfOk result (λ m. m ≡ Created.Column table.now column.now) }
{
    Ok(Created::Column {
        table: table.clone()?,
        column: column.clone()?,
    })
}

fn records_created(single: bool, table: &Name, rows: &RowList) -> Result<Created, AllocError>
    ensures { IfOk result (λ m. m ≡ records_created single table.now rows.now) }
{
    let table = table.clone()?;
    match rows.as_slice() {
        [row, ..] if single => Ok(Created::Record { table, row: *row }),
        _ => Ok(Created::Records {
            table,
            rows: rows.clone()?,
        }),
    }
}

// What an action created by its first step.
fn created_by(action: &UserAction, step: &DocAction) -> Result<Created, AllocError>
    ensures { IfOk result (λ m. m ≡ created_by action.now step.now) }
{
    match step {
        DocAction::BulkAdd { table, rows, .. } => records_created(is_single(action), table, rows),
        DocAction::AddTable { table, .. } => table_created(table),
        DocAction::RenameTable { new, .. } => table_created(new),
        DocAction::AddColumn { table, column } => column_created(table, &column.id),
        DocAction::RenameColumn { table, new, .. } => column_created(table, new),
        _ => Ok(Created::Nothing),
    }
}

// What an action without steps created: a rename to the own id tells that id.
fn created_alone<D: DocTables>(
    alloc: Global,
    tables: &D,
    action: &UserAction,
) -> Result<Created, AllocError>
    requires whole { IsWhole (D.document tables.now) }
    requires allowed { is_allowed (D.document tables.now) action.now ≡ true }
    ensures { IfOk result (λ m. m ≡ created_alone action.now) }
{
    match action {
        UserAction::RenameTable { new, .. } => Ok(Created::Table(name_of(alloc, new.as_str())?)),
        UserAction::RenameColumn { table, new, .. } => Ok(Created::Column {
            table: name_of(alloc, table.as_str())?,
            column: name_of(alloc, new.as_str())?,
        }),
        _ => Ok(Created::Nothing),
    }
}

/// What an action of these steps created.
pub fn created_of<D: DocTables>(
    alloc: Global,
    tables: &D,
    action: &UserAction,
    steps: &[Step],
) -> Result<Created, AllocError>
    requires whole { IsWhole (D.document tables.now) }
    requires allowed { is_allowed (D.document tables.now) action.now ≡ true }
    ensures { IfOk result (λ m. m ≡ created_of action.now (map action_of steps.now)) }
{
    match steps {
        [step, ..] => created_by(action, &step.action),
        [] => created_alone(alloc, tables, action),
    }
}

// The row, where the context shows it.
fn row_told<X: Lets, D: DocReader>(ctx: &X, tables: &D, table: &Name, row: u32) -> Option<u32>
    requires { IsLaidOut (D.document tables.now) }
    ensures { result ≡ row_told (view (X.lets ctx.now) (D.document tables.now)) table.now row }
{
    if is_row_seen(ctx, tables, table, row) {
        return Some(row);
    }
    None
}

fn rows_told<X: Lets, D: DocReader>(
    alloc: Global,
    ctx: &X,
    tables: &D,
    table: &Name,
    rows: &[u32],
) -> Result<RetValue, AllocError>
    requires { IsLaidOut (D.document tables.now) }
    ensures { IfOk result (λ v. v ≡ RetValue.Ids
        (map (row_told (view (X.lets ctx.now) (D.document tables.now)) table.now) rows.now)) }
{
    let mut told = Vec::with_capacity(alloc, rows.len())?;
    for row in rows {
        told.push(row_told(ctx, tables, table, *row))?;
    }
    Ok(RetValue::Ids(RetIdList::from(told)))
}

fn name_told(name: &Name) -> Result<RetValue, AllocError>
    ensures { IfOk result (λ v. v ≡ RetValue.Name name.now) }
{
    Ok(RetValue::Name(name.clone()?))
}

// What is told of what an action created, by what the context shows of the document now.
fn told_of<X: Lets, D: DocReader>(
    alloc: Global,
    ctx: &X,
    tables: &D,
    created: &Created,
) -> Result<RetValue, AllocError>
    requires { IsLaidOut (D.document tables.now) }
    ensures { IfOk result (λ v. v
        ≡ told_of (view (X.lets ctx.now) (D.document tables.now)) created.now) }
{
    match created {
        Created::Record { table, row } if is_row_seen(ctx, tables, table, *row) => {
            Ok(RetValue::Id(*row))
        }
        Created::Records { table, rows } => rows_told(alloc, ctx, tables, table, rows.as_slice()),
        Created::Table(table) if is_table_seen(ctx, tables, table) => name_told(table),
        Created::Column { table, column } if is_column_seen(ctx, tables, table, column) => {
            name_told(column)
        }
        _ => Ok(RetValue::Null),
    }
}

/// What is told of what the actions of a bundle created, by what the context shows of the document
/// now.
///
/// Errors: out of memory. Cost: for each created record the decisions that show its row.
pub fn all_told<X: Lets, D: DocReader>(
    alloc: Global,
    ctx: &X,
    tables: &D,
    created: &[Created],
) -> Result<RetValueList, AllocError>
    requires { IsLaidOut (D.document tables.now) }
    ensures { IfOk result (λ l. l
        ≡ map (told_of (view (X.lets ctx.now) (D.document tables.now))) created.now) }
{
    let mut told = Vec::with_capacity(alloc, created.len())?;
    for one in created {
        told.push(told_of(alloc, ctx, tables, one)?)?;
    }
    Ok(RetValueList::from(told))
}
