//! What columns may be.

ghost use Rattle.std.specs.Prelude.{◌≡◌};
ghost use Rattle.cell_types.specs.declared.column_type.ColType.TheVariants.{Ref};
ghost use Rattle.doc_model.specs.Column.{is_sound_info, is_sound_type};
ghost use Rattle.cell_types.specs.ColumnRange.{is_null};

use cell_types::{CellValue, ColType, Name};
use doc_model::ColInfo;
use doc_readers::{is_metadata_id, is_short};
use name_rules::is_name;

/// Whether the value is null.
pub(crate) fn is_null(value: &CellValue) -> bool
    ensures { result ≡ is_null value.now }
{
    matches!(value, CellValue::Null)
}

// Whether a reference may name the table.
fn may_be_table(id: &Name) -> bool
    ensures { result ≡ is_sound_type (Ref id.now) }
{
    is_name(id.as_str()) || is_metadata_id(id.as_str())
}

fn is_sound_type(ty: &ColType) -> bool
    ensures { result ≡ is_sound_type ty.now }
{
    match ty {
        ColType::Ref(table) | ColType::RefList(table) => may_be_table(table),
        _ => true,
    }
}

/// Whether a column may be that: a sound type, and a short formula, which a data column has not.
pub(crate) fn is_sound_info(info: &ColInfo) -> bool
    ensures { result ≡ is_sound_info info.now }
{
    is_sound_type(&info.ty)
        && is_short(&info.formula)
        && (info.is_formula || info.formula.len() == 0)
}
