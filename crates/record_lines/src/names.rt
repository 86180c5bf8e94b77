//! Names behind the table of a document action.
ghost use Rattle.std.specs.Prelude.{◌≡◌, IfOk};
ghost use Rattle.serde_json.specs.View.{items_view};
ghost use Rattle.action_lines.specs.ReadValues.{name_from};
ghost use Rattle.record_lines.specs.Reading.{only_name, two_names};

use action_lines::Items;
use cell_types::{CellText, Name};
use std::alloc::{AllocError, Global};

/// The name of that text, where it has 1 to 64 characters.
pub(crate) fn name_of(alloc: Global, text: &str) -> Result<Option<Name>, AllocError>
    ensures { IfOk result (λ o. o ≡ name_from text.now) }
{
    Ok(Name::try_new(CellText::copy_of(alloc, text)?))
}

/// The one name that is left, where there is one alone.
#[tactic(auto, unfolding(crate::specs::Reading::only_name))]
pub(crate) fn only_name(alloc: Global, items: Items<'_>) -> Result<Option<Name>, AllocError>
    ensures { IfOk result (λ o. o ≡ only_name (items_view items.entry.left.now)) }
{
    match items.only_text() {
        Some(text) => name_of(alloc, text),
        None => Ok(None),
    }
}

/// The two names that are left, where there are two alone.
#[tactic(auto, unfolding(crate::specs::Reading::two_names))]
pub(crate) fn two_names(alloc: Global, items: Items<'_>) -> Result<Option<(Name, Name)>, AllocError>
    ensures { IfOk result (λ o. o ≡ two_names (items_view items.entry.left.now)) }
{
    let Some((first, second)) = items.text_beside() else {
        return Ok(None);
    };
    let Some(first) = name_of(alloc, first)? else {
        return Ok(None);
    };
    let Some(second) = second.as_str() else {
        return Ok(None);
    };
    match name_of(alloc, second)? {
        Some(second) => Ok(Some((first, second))),
        None => Ok(None),
    }
}
