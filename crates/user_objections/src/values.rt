//! The columns that an action gives values, and those values.

ghost use Rattle.std.specs.Prelude.{◌≡◌};
ghost use Rattle.std.specs.List.{list_all, list_any};
ghost use Rattle.user_actions.specs.Given.{has_base};
ghost use Rattle.user_objections.specs.Objections.{is_computed, is_shown};

use crate::tables::{find_column, has_column};
use doc_model::{UserColumn, ViewCol};
use doc_readers::are_base;

fn has_base(column: &UserColumn) -> bool
    ensures { result ≡ has_base column.now }
{
    are_base(column.values.as_slice())
}

/// Whether cells may hold all values that are given.
pub(crate) fn are_all_base(given: &[UserColumn]) -> bool
    ensures { result ≡ list_all has_base given.now }
{
    given.iter().all(|column| has_base(column))
}

/// Whether each column that is given values is in the view.
pub(crate) fn are_shown(columns: &[ViewCol], given: &[UserColumn]) -> bool
    ensures { result ≡ list_all (is_shown columns.now) given.now }
{
    given
        .iter()
        .all(|column| has_column(columns, column.id.as_str()))
}

fn is_computed(columns: &[ViewCol], given: &UserColumn) -> bool
    ensures { result ≡ is_computed columns.now given.now }
{
    match find_column(columns, given.id.as_str()) {
        Some(column) => column.is_formula,
        None => false,
    }
}

/// Whether a column that is given values has a formula.
pub(crate) fn is_any_computed(columns: &[ViewCol], given: &[UserColumn]) -> bool
    ensures { result ≡ list_any (is_computed columns.now) given.now }
{
    given.iter().any(|column| is_computed(columns, column))
}
