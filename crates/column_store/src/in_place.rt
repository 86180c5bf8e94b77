//! Items of a vector changed at their places.

ghost use Rattle.std.specs.Prelude.{◌≡◌, ◌<◌, ◌≤◌, ◌+◌, slice_index_or, slice_set, vec_capacity, vec_len};
ghost use Rattle.std.specs.List.{insert, remove};

use std::mem;

/// Puts an item in at an index, or at the end where the index is past it.
///
/// Memory: none.
pub(crate) fn insert_reserved<T: Drop>(items: &mut Vec<T>, index: usize, item: T)
    requires { vec_len items.old < vec_capacity items.old }
    ensures items { items.new.items ≡ insert items.old.items index item }
    ensures len { vec_len items.new ≡ vec_len items.old + 1 }
    ensures capacity { vec_capacity items.old ≤ vec_capacity items.new }
{
    let end = items.len();
    if items.insert(index.min(end), item).is_err() {
        unreachable!()
    }
}

/// Removes what stands at an index, where something does.
pub(crate) fn remove_at<T: Drop>(items: &mut Vec<T>, index: usize)
    ensures items { items.new.items ≡ remove items.old.items index }
    ensures room { vec_len items.new ≤ vec_capacity items.new }
{
    if index < items.len() {
        let _removed = items.remove(index);
    }
}

/// Swaps an item with what stands at an index, where something does.
pub(crate) fn swap_at<T>(items: &mut Vec<T>, index: usize, item: &mut T)
    ensures items { items.new.items ≡ slice_set items.old.items index item.old }
    ensures item { item.new ≡ slice_index_or items.old.items index item.old }
    ensures len { vec_len items.new ≡ vec_len items.old }
    ensures capacity { vec_capacity items.old ≤ vec_capacity items.new }
{
    if index < items.len() {
        mem::swap(&mut items[index], item);
    }
}

/// Moves items to where there is room for them.
///
/// Memory: none.
pub(crate) fn move_to<T: Drop>(items: &mut Vec<T>, room: Vec<T>)
    requires { vec_len items.old ≤ vec_capacity room }
    ensures items { items.new.items ≡ items.old.items }
    ensures len { vec_len items.new ≡ vec_len items.old }
    ensures capacity { vec_capacity room ≤ vec_capacity items.new }
{
    let mut moved = room;
    moved.clear();
    if moved.append(items).is_err() {
        unreachable!()
    }
    *items = moved;
}
