//! Indexes made before the attempts of a level: an attempt among others cannot make one.

ghost use Rattle.std.specs.Prelude.{OnOk};
ghost use Rattle.recalc.specs.Evaluated.{sheet_of};
ghost use Rattle.recalc.specs.Indexes.{AreIndexes};

use cell_types::Name;
use doc_model::DocTables;
use formula_parse::{ArgumentList, Formula, LookupKeyList, Node};
use recalc::{ColumnIndex, index_column};
use std::alloc::{AllocError, Global};

/// Makes the indexes of the data columns by which a formula may look rows up, where they have none.
///
/// Errors: out of memory; the indexes are then to be given up.
/// Memory: a row id for each row of a table, for each index.
#[cycle(indexing)]
pub(crate) fn index_formula<D: DocTables>(
    alloc: Global,
    tables: &D,
    indexes: &mut Vec<ColumnIndex>,
    formula: &Formula,
) -> Result<(), AllocError>
    requires { AreIndexes (sheet_of (D.document tables.now)) indexes.old.items }
    ensures { OnOk result (AreIndexes (sheet_of (D.document tables.now)) indexes.new.items) }
{
    match formula.node() {
        Node::Binary(_, left, right) => {
            index_formula(alloc, tables, indexes, left)?;
            index_formula(alloc, tables, indexes, right)
        }
        Node::Prefix(_, inner) | Node::Parentheses(inner) | Node::Attribute(inner, _) => {
            index_formula(alloc, tables, indexes, inner)
        }
        Node::Conditional(value, test, other) => {
            index_formula(alloc, tables, indexes, value)?;
            index_formula(alloc, tables, indexes, test)?;
            index_formula(alloc, tables, indexes, other)
        }
        Node::List(items) | Node::Call(_, items) => index_items(alloc, tables, indexes, items),
        Node::Lookup(_, table, keys) => index_keys(alloc, tables, indexes, table, keys),
        _ => Ok(()),
    }
}

#[cycle(indexing)]
fn index_items<D: DocTables>(
    alloc: Global,
    tables: &D,
    indexes: &mut Vec<ColumnIndex>,
    items: &ArgumentList,
) -> Result<(), AllocError>
    requires { AreIndexes (sheet_of (D.document tables.now)) indexes.old.items }
    ensures { OnOk result (AreIndexes (sheet_of (D.document tables.now)) indexes.new.items) }
{
    for item in items.as_slice() {
        index_formula(alloc, tables, indexes, item)?;
    }
    Ok(())
}

#[cycle(indexing)]
fn index_keys<D: DocTables>(
    alloc: Global,
    tables: &D,
    indexes: &mut Vec<ColumnIndex>,
    table: &Name,
    keys: &LookupKeyList,
) -> Result<(), AllocError>
    requires { AreIndexes (sheet_of (D.document tables.now)) indexes.old.items }
    ensures { OnOk result (AreIndexes (sheet_of (D.document tables.now)) indexes.new.items) }
{
    for key in keys.as_slice() {
        index_column(alloc, tables, indexes, table, &key.name)?;
        index_formula(alloc, tables, indexes, &key.value)?;
    }
    Ok(())
}
