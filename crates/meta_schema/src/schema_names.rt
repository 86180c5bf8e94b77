//! The ids of the schema tables and of their columns.

ghost use Rattle.std.specs.Prelude.{◌≡◌, codes, IfOk};
ghost use Rattle.cell_types.specs.NameLength.{HasNameLength};
ghost use Rattle.doc_model.specs.MetadataIds.{columns_id, tables_id};
ghost use Rattle.meta_schema.specs.Names.{AreSchemaNames};

use cell_types::{CellText, Name};
use std::alloc::{AllocError, Global};

/// The ids by which the schema tables are asked.
#[derive(Drop)]
pub(crate) struct SchemaNames {
    pub(crate) tables: Name,
    pub(crate) table_id: Name,
    pub(crate) columns: Name,
    pub(crate) parent_id: Name,
    pub(crate) col_id: Name,
    pub(crate) type_text: Name,
    pub(crate) is_formula: Name,
    pub(crate) formula: Name,
}

fn name_of(alloc: Global, text: &str) -> Result<Name, AllocError>
    requires { HasNameLength text.now }
    ensures { IfOk result (λ n. n ≡ text.now) }
{
    Ok(Name::new(CellText::copy_of(alloc, text)?))
}

// The ids of the table of tables, and of its column of ids.
#[tactic(auto, unfolding(doc_model::specs::MetadataIds::tables_id))]
fn table_names(alloc: Global) -> Result<(Name, Name), AllocError>
    ensures { IfOk result (λ n. (n.0 ≡ tables_id) × (n.1 ≡ codes "tableId")) }
{
    let tables = name_of(alloc, "_grist_Tables")?;
    Ok((tables, name_of(alloc, "tableId")?))
}

// The ids of the table of columns, and of its columns of tables and ids.
#[tactic(auto, unfolding(doc_model::specs::MetadataIds::columns_id))]
fn column_names(alloc: Global) -> Result<(Name, Name, Name), AllocError>
    ensures { IfOk result
        (λ n. (n.0 ≡ columns_id) × ((n.1 ≡ codes "parentId") × (n.2 ≡ codes "colId"))) }
{
    let columns = name_of(alloc, "_grist_Tables_column")?;
    let parent_id = name_of(alloc, "parentId")?;
    Ok((columns, parent_id, name_of(alloc, "colId")?))
}

// The ids of the columns that say what a column is.
fn info_names(alloc: Global) -> Result<(Name, Name, Name), AllocError>
    ensures { IfOk result
        (λ n. (n.0 ≡ codes "type") × ((n.1 ≡ codes "isFormula") × (n.2 ≡ codes "formula"))) }
{
    let type_text = name_of(alloc, "type")?;
    let is_formula = name_of(alloc, "isFormula")?;
    Ok((type_text, is_formula, name_of(alloc, "formula")?))
}

/// Those ids.
pub(crate) fn schema_names(alloc: Global) -> Result<SchemaNames, AllocError>
    ensures { IfOk result (λ names. AreSchemaNames names) }
{
    let (tables, table_id) = table_names(alloc)?;
    let (columns, parent_id, col_id) = column_names(alloc)?;
    let (type_text, is_formula, formula) = info_names(alloc)?;
    Ok(SchemaNames {
        tables,
        table_id,
        columns,
        parent_id,
        col_id,
        type_text,
        is_formula,
        formula,
    })
}
