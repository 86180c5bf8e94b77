//! What a column is, as far as a view tells it.

ghost use Rattle.audited_columns.specs.ColumnLaws.{InfosLaw};

/// The view tells a closed user what each shown column is.
pub fn columns_law()
    ensures { InfosLaw }
{}
