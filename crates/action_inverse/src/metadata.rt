//! The metadata rows of tables.

ghost use Rattle.std.specs.Prelude.{◌≡◌};
ghost use Rattle.action_inverse.specs.Parts.{metadata_row};
ghost use Rattle.doc_model.specs.Schema.{SchemaAgrees};

use cell_types::{Name, Same};
use doc_model::DocTables;

/// How many metadata tables stand before the others.
const METADATA_TABLES: usize = 4;

/// The row that describes a table in the table of tables, which is the first one: its rows stand in
/// the order of the tables that follow the metadata tables.
///
/// Cost: linear in the number of tables.
pub(crate) fn metadata_row<D: DocTables>(tables: &D, table: &Name) -> Option<u32>
    requires { SchemaAgrees (D.document tables.now) }
    ensures { result ≡ metadata_row (D.document tables.now) table.now }
{
    let described = tables.table(0)?;
    let rows = tables.rows(described)?;
    for index in 0..rows.len() {
        let other = tables.table(METADATA_TABLES + index)?;
        if other.same_as(table) {
            return Some(rows[index]);
        }
    }
    None
}
