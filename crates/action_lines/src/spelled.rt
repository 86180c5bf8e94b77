//! Things that JSON stands for, and lists of them.
ghost use Rattle.std.specs.Prelude.{◌≡◌, true, Option, IfOk, option_map};
ghost use Rattle.serde_json.specs.Data.{Data};
ghost use Rattle.serde_json.specs.View.{view, items_view};
ghost use Rattle.action_lines.specs.Items.{all_from, given_from};

use crate::items::Items;
use crate::numbers::{int_of, row_of};
use serde_json::Value;
use std::alloc::{AllocError, Global};

/// A thing that JSON stands for.
pub trait Spelled: Drop + Sized {
    /// The thing that the JSON stands for.
    ghost from: { Data → Option Self };

    /// Reads the thing that the JSON stands for, or nothing where it stands for none.
    fn read(alloc: Global, value: &Value) -> Result<Option<Self>, AllocError>
        ensures { IfOk result (λ o. o ≡ from (view value.now)) };
}

/// Reads what each of the items stands for, or nothing where one of them stands for none.
pub(crate) fn read_all<T: Spelled>(
    alloc: Global,
    mut items: Items<'_>,
) -> Result<Option<Vec<T>>, AllocError>
    ensures { IfOk result (λ o.
        option_map (λ v. v.items) o ≡ all_from T.from (items_view items.entry.left.now)) }
{
    let mut things = Vec::new(alloc);
    while let Some(value) = items.take() {
        let Some(thing) = T::read(alloc, value)? else {
            return Ok(None);
        };
        things.push(thing)?;
    }
    Ok(Some(things))
}

/// Reads one thing, or else the things of an array.
pub fn read_given<T: Spelled>(
    alloc: Global,
    single: bool,
    value: &Value,
) -> Result<Option<Vec<T>>, AllocError>
    ensures { IfOk result (λ o.
        option_map (λ v. v.items) o ≡ given_from T.from single (view value.now)) }
{
    if single {
        return read_one::<T>(alloc, value);
    }
    match Items::of(value) {
        Some(items) => read_all::<T>(alloc, items),
        None => Ok(None),
    }
}

fn read_one<T: Spelled>(alloc: Global, value: &Value) -> Result<Option<Vec<T>>, AllocError>
    ensures { IfOk result (λ o.
        option_map (λ v. v.items) o ≡ given_from T.from true (view value.now)) }
{
    let Some(thing) = T::read(alloc, value)? else {
        return Ok(None);
    };
    let mut things = Vec::new(alloc);
    things.push(thing)?;
    Ok(Some(things))
}

impl Spelled for u32 {
    ghost use Rattle.action_lines.specs.Numbers.{row_from};

    ghost from = { row_from };

    fn read(_alloc: Global, value: &Value) -> Result<Option<u32>, AllocError> {
        Ok(row_of(value))
    }
}

impl Spelled for i64 {
    ghost use Rattle.action_lines.specs.Numbers.{int_from};

    ghost from = { int_from };

    fn read(_alloc: Global, value: &Value) -> Result<Option<i64>, AllocError> {
        Ok(int_of(value))
    }
}

impl Spelled for Option<i64> {
    ghost use Rattle.action_lines.specs.Numbers.{new_row_from};

    ghost from = { new_row_from };

    fn read(_alloc: Global, value: &Value) -> Result<Option<Option<i64>>, AllocError> {
        match value {
            Value::Null => Ok(Some(None)),
            _ => match int_of(value) {
                Some(number) => Ok(Some(Some(number))),
                None => Ok(None),
            },
        }
    }
}
