//! Things that records have lists of.
ghost use Rattle.std.specs.Prelude.{◌≡◌, false, Option, IfOk, option_map};
ghost use Rattle.serde_json.specs.Data.{Data};
ghost use Rattle.serde_json.specs.View.{view, items_view};
ghost use Rattle.action_lines.specs.Items.{all_from, given_from};

use action_lines::Items;
use serde_json::Value;
use std::alloc::{AllocError, Global};

/// A thing that JSON stands for in a record.
pub(crate) trait Recorded: Drop + Sized {
    /// The thing that the JSON stands for.
    ghost from: { Data → Option Self };

    /// Reads the thing that the JSON stands for, or nothing where it stands for none.
    fn read(alloc: Global, value: &Value) -> Result<Option<Self>, AllocError>
        ensures { IfOk result (λ o. o ≡ from (view value.now)) };
}

fn read_all<T: Recorded>(alloc: Global, mut items: Items<'_>) -> Result<Option<Vec<T>>, AllocError>
    ensures { IfOk result (λ o.
        option_map (λ v. v.items) o ≡ all_from T.from (items_view items.entry.left.now)) }
{
    let mut things = Vec::new(alloc);
    while let Some(value) = items.take() {
        let Some(thing) = T::read(alloc, value)? else {
            return Ok(None);
        };
        things.push(thing)?;
    }
    Ok(Some(things))
}

/// Reads what each item of an array stands for, or nothing where one stands for none.
pub(crate) fn read_list<T: Recorded>(
    alloc: Global,
    value: &Value,
) -> Result<Option<Vec<T>>, AllocError>
    ensures { IfOk result (λ o.
        option_map (λ v. v.items) o ≡ given_from T.from false (view value.now)) }
{
    match Items::of(value) {
        Some(items) => read_all::<T>(alloc, items),
        None => Ok(None),
    }
}
