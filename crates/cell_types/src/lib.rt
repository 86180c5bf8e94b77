//! Values and names: the vocabulary that every other crate speaks.
//!
//! Stands on `unicode_ident` (which characters a name may have). Used by every crate of the engine.
//!
//! Promises: a text is seen as its bytes, a name as a text of 1 to 64 characters, and each list
//! type as the list of its items; all are made from what they hold and give it back without memory.
//! `same_as` is equality of what is seen, copies are equal to what they copy, and names and texts
//! are ordered by bytes. What a good name is stands in specs/NameRule.antt.
//! Read first: value.rt, then column_type.rt and sequence.rt.
#![tactic(auto)]

mod bounded_text;
mod cell;
mod column_type;
mod conversion;
mod decimal;
mod laws;
mod name;
mod reference;
mod same;
mod sequence;
mod text;
mod value;
mod value_text;

pub use bounded_text::MAX_TEXT_BYTES;
pub use cell::{CellId, CellIdList, CellOld, CellOldList, KeyItem, KeyList, Read, ReadList};
pub use column_type::ColType;
pub use conversion::{convert, copy_of, default_of};
pub use decimal::decimal_value;
pub use laws::{decimal_reads_back_law, default_fits_law, range_law, twice_is_once_law};
pub use name::{Name, NameList};
pub use same::Same;
pub use sequence::Sequence;
pub use text::{CellText, TextList};
pub use value::{CellItem, CellList, CellValue, ErrKind, RowList, RowRef, RowSet, ValueList};
pub use value_text::{error_name, text_of};
