//! Plan: three watchers of a session, of which the second fails at its second line, beside one of
//! another session (`watchers_take_lines`).

use cell_types::{CellText, Name};
use std::alloc::{AllocError, Global};
use watch_box::*;

fn name(alloc: Global, text: &str) -> Option<Name> {
    match CellText::copy_of(alloc, text) {
        Ok(text) => Name::try_new(text),
        Err(_) => None,
    }
}

fn has_lines(watcher: &MemWatcher, want: &[&str]) -> bool {
    watcher.lines().len() == want.len()
        && watcher
            .lines()
            .iter()
            .zip(want.iter())
            .all(|(line, text)| line.as_slice() == text.as_bytes())
}

fn add(
    alloc: Global,
    list: &mut WatchList<MemWatcher>,
    number: u32,
    session: Option<Name>,
    failing: Vec<u64>,
) -> Result<bool, AllocError> {
    let watcher = MemWatcher::new(alloc, 4, 8, failing)?;
    match session {
        Some(session) => Ok(list.push(number, session, watcher).is_ok()),
        None => Ok(false),
    }
}

fn took(list: &mut WatchList<MemWatcher>, number: u32, want: &[&str]) -> bool {
    match list.take_out(number) {
        Some(watcher) => has_lines(&watcher, want),
        None => false,
    }
}

fn are_told(alloc: Global) -> Result<bool, AllocError> {
    let mut list = WatchList::new(alloc);
    let mut failing = Vec::new(alloc);
    failing.push(1)?;
    let are_added = add(alloc, &mut list, 0, name(alloc, "s2"), Vec::new(alloc))?
        && add(alloc, &mut list, 1, name(alloc, "s2"), failing)?
        && add(alloc, &mut list, 2, name(alloc, "s1"), Vec::new(alloc))?
        && add(alloc, &mut list, 3, name(alloc, "s2"), Vec::new(alloc))?;
    let Some(session) = name(alloc, "s2") else {
        return Ok(false);
    };
    list.tell(&session, b"one");
    list.tell(&session, b"two");
    Ok(
        are_added
            && took(&mut list, 0, &["one", "two"])
            && list.take_out(0).is_none()
            && list.take_out(1).is_none()
            && took(&mut list, 2, &[])
            && took(&mut list, 3, &["one", "two"]),
    )
}

#[test]
fn watchers_take_lines(rt: HostRuntime) {
    assert!(rt; matches!(are_told(rt.alloc()), Ok(true)));
}
