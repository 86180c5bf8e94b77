//! Lists made item by item of other lists.

ghost use Rattle.std.specs.Prelude.{◌≡◌, IfOk, map};
ghost use Rattle.std.specs.Fn.{FnReturnsAt};

use std::alloc::{AllocError, Global};

/// What is made of each item, in order: where a function tells what `make` makes of an item, the
/// map of that function.
///
/// Errors: out of memory.
pub fn all_made<T, U: Drop, F: Fn(&T) -> Result<U, AllocError>>(
    alloc: Global,
    items: &[T],
    make: F,
) -> Result<Vec<U>, AllocError>
    requires { F.IsAlwaysCallable make }
    ensures { (f : T → U)
        → ((x : T) (y : U) → FnReturnsAt F.Fn make x (Ok y) → y ≡ f x)
        → IfOk result (λ v. v.items ≡ map f items.now) }
{
    let mut all = Vec::with_capacity(alloc, items.len())?;
    for item in items {
        all.push(make(item)?)?;
    }
    Ok(all)
}

/// A copy of each item, in order: the same list, where what `copy` makes is what it is given.
///
/// Errors: out of memory.
pub fn all_copied<T: Drop, F: Fn(&T) -> Result<T, AllocError>>(
    alloc: Global,
    items: &[T],
    copy: F,
) -> Result<Vec<T>, AllocError>
    requires { F.IsAlwaysCallable copy }
    ensures { ((x y : T) → FnReturnsAt F.Fn copy x (Ok y) → y ≡ x)
        → IfOk result (λ v. v.items ≡ items.now) }
{
    Ok(all_made(alloc, items, copy)?)
}
