//! What a rule is about.

ghost use Rattle.std.specs.Prelude.{◌≡◌, bytes_eq};
ghost use Rattle.std.specs.List.{list_any};
ghost use Rattle.acl_rules.specs.Chain.{names_column, are_all, is_of, part_in};

use cell_types::{Name, NameList};

/// Which columns of a table a rule is about.
#[derive(Clone, Debug, Drop)]
pub enum Columns {
    /// `*`
    All,
    These(NameList),
}

/// What a rule is about.
#[derive(Clone, Debug, Drop)]
pub enum Resource {
    /// `*` with the columns `*`
    Document,
    Table(Name, Columns),
}

/// A part of a chain: the rules of a column of a table, of a whole table, or of the document.
#[derive(Clone, Copy)]
pub enum Part<'a> {
    Column(&'a str, &'a str),
    Table(&'a str),
    Document,
}

fn is_named(names: &[Name], column: &str) -> bool
    ensures { result ≡ list_any (λ d. bytes_eq d column.now) names.now }
{
    names.iter().any(|name| name.as_str() == column)
}

fn names_column(columns: &Columns, column: &str) -> bool
    ensures { result ≡ names_column columns.now column.now }
{
    match columns {
        Columns::All => false,
        Columns::These(names) => is_named(names.as_slice(), column),
    }
}

fn are_all(columns: &Columns) -> bool
    ensures { result ≡ are_all columns.now }
{
    matches!(columns, Columns::All)
}

/// Whether a rule about this is of that part. A rule about nothing is of none.
///
/// Memory: none.
pub fn is_of(part: Part<'_>, resource: &Option<Resource>) -> bool
    ensures { result ≡ is_of (part_in part.entry) resource.now }
{
    match (part, resource) {
        (Part::Column(table, column), Some(Resource::Table(id, columns))) => {
            id.as_str() == table && names_column(columns, column)
        }
        (Part::Table(table), Some(Resource::Table(id, columns))) => {
            id.as_str() == table && are_all(columns)
        }
        (Part::Document, Some(Resource::Document)) => true,
        _ => false,
    }
}
