//! The tables that every new document has, and their columns.

ghost use Rattle.std.specs.Prelude.{◌≡◌, IfOk, [], map};
ghost use Rattle.row_tables.specs.Known.{empty_table, known_column, known_columns, known_info, known_row, known_table, known_text, known_type};

use crate::RowTable;
use crate::known::{Known, name_of};
use cell_types::{CellText, ColType, ValueList};
use doc_model::{ColDef, ColInfo};
use list_ops::all_made;
use std::alloc::{AllocError, Global};

/// The type of a column that every new document has.
#[derive(Clone, Copy)]
pub(crate) enum KnownType {
    Any,
    Text,
    Int,
    Bool,
    Ref(Known),
}

/// A data column that every new document has: its id, its type, and the row that describes it.
#[derive(Clone, Copy)]
pub(crate) struct KnownColumn(Known, KnownType, u32);

// The columns of a table.
fn columns_told(table: Known) -> &'static [KnownColumn]
    ensures { map known_column result.now ≡ known_columns table }
{
    match table {
        Known::Tables => &[KnownColumn(Known::TableId, KnownType::Text, 0)],
        Known::Columns => &[
            KnownColumn(Known::ParentId, KnownType::Ref(Known::Tables), 0),
            KnownColumn(Known::ColId, KnownType::Text, 0),
            KnownColumn(Known::Type, KnownType::Text, 0),
            KnownColumn(Known::IsFormula, KnownType::Bool, 0),
            KnownColumn(Known::Formula, KnownType::Text, 0),
        ],
        Known::Resources => &[
            KnownColumn(Known::TableId, KnownType::Text, 0),
            KnownColumn(Known::ColIds, KnownType::Text, 0),
        ],
        Known::Rules => &[
            KnownColumn(Known::Resource, KnownType::Ref(Known::Resources), 0),
            KnownColumn(Known::AclFormula, KnownType::Text, 0),
            KnownColumn(Known::PermissionsText, KnownType::Text, 0),
            KnownColumn(Known::RulePos, KnownType::Int, 0),
            KnownColumn(Known::UserAttributes, KnownType::Text, 0),
            KnownColumn(Known::Memo, KnownType::Text, 0),
        ],
        Known::Table1 => &[
            KnownColumn(Known::A, KnownType::Any, 1),
            KnownColumn(Known::B, KnownType::Any, 2),
            KnownColumn(Known::C, KnownType::Any, 3),
        ],
        _ => &[],
    }
}

fn type_of(alloc: Global, ty: KnownType) -> Result<ColType, AllocError>
    ensures { IfOk result (λ t. t ≡ known_type ty) }
{
    Ok(match ty {
        KnownType::Any => ColType::Any,
        KnownType::Text => ColType::Text,
        KnownType::Int => ColType::Int,
        KnownType::Bool => ColType::Bool,
        KnownType::Ref(table) => ColType::Ref(name_of(alloc, table)?),
    })
}

// What a data column of that type is.
fn info_of(alloc: Global, ty: KnownType) -> Result<ColInfo, AllocError>
    ensures { IfOk result (λ info. info ≡ known_info ty) }
{
    Ok(ColInfo {
        ty: type_of(alloc, ty)?,
        is_formula: false,
        formula: CellText::empty(),
    })
}

fn known_column(alloc: Global, column: &KnownColumn) -> Result<ColDef, AllocError>
    ensures { IfOk result (λ d. d ≡ known_column column.now) }
{
    let KnownColumn(known, ty, row) = *column;
    let info = info_of(alloc, ty)?;
    let id = name_of(alloc, known)?;
    Ok(ColDef { id, info, row })
}

// The row that describes a table.
fn row_of(table: Known) -> u32
    ensures { result ≡ known_row table }
{
    u32::from(matches!(table, Known::Table1))
}

/// A table that every new document has, with these rows and cells.
pub(crate) fn known_table(
    alloc: Global,
    known: Known,
    rows: Vec<u32>,
    cells: Vec<ValueList>,
) -> Result<RowTable, AllocError>
    ensures { IfOk result (λ t. t ≡ known_table known rows.items cells.items) }
{
    let columns = all_made(
        alloc,
        columns_told(known),
        |column| known_column(alloc, column),
    )?;
    let id = name_of(alloc, known)?;
    Ok(RowTable {
        id,
        row: row_of(known),
        columns,
        rows,
        cells,
    })
}

/// Such a table without rows.
pub(crate) fn empty_table(alloc: Global, known: Known) -> Result<RowTable, AllocError>
    ensures { IfOk result (λ t. t ≡ empty_table known) }
{
    known_table(alloc, known, Vec::new(alloc), Vec::new(alloc))
}
