//! Names in the order of their bytes.

ghost use Rattle.std.specs.Prelude.{◌≡◌, ◌++◌, ◌∷◌, [], cond, IfOk, MatchResult, OnOk};
ghost use Rattle.doc_model.specs.ByIds.{put_by_id};
ghost use Rattle.recalc.specs.InOrder.{GoesBefore, GoesOver, in_order, itself};

use cell_types::Name;
use std::alloc::{AllocError, Global};
use std::cmp::Ordering;

// The index at which the name stands, or before which it goes.
fn index_of(names: &[Name], id: &Name) -> Result<usize, usize>
    ensures { MatchResult result
        (GoesOver itself id.now names.now) (GoesBefore itself id.now names.now) }
{
    for index in 0..names.len() {
        match id.cmp(&names[index]) {
            Ordering::Less => return Err(index),
            Ordering::Equal => return Ok(index),
            Ordering::Greater => {}
        }
    }
    Err(names.len())
}

fn put(names: &mut Vec<Name>, name: Name) -> Result<(), AllocError>
    ensures { OnOk result (names.new.items ≡ put_by_id itself name names.old.items) }
{
    match index_of(names, &name) {
        Ok(index) => names[index] = name,
        Err(index) => names.insert(index, name)?,
    }
    Ok(())
}

/// The names in order.
pub fn sorted(alloc: Global, names: &[Name]) -> Result<Vec<Name>, AllocError>
    ensures { IfOk result (λ v. v.items ≡ in_order names.now) }
{
    let mut sorted = Vec::with_capacity(alloc, names.len())?;
    for taken in 0..names.len() {
        put(&mut sorted, names[names.len() - 1 - taken].clone()?)?;
    }
    Ok(sorted)
}

/// Puts a copy of the name last, where it is wanted.
pub fn push_if(names: &mut Vec<Name>, name: &Name, wanted: bool) -> Result<(), AllocError>
    ensures { OnOk result
        (names.new.items ≡ names.old.items ++ cond wanted (name.now ∷ []) []) }
{
    if wanted {
        names.push(name.clone()?)?;
    }
    Ok(())
}
