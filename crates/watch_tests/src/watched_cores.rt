//! Plan: numbers of watchers of a core, of which one is taken out; then three watchers of a
//! session, of which the second fails at its second line, and one of the session whose bundle it is
//! (`watchers_take_what_sessions_are_given`). One function alone owns a core, since what is let go
//! of one is dear to prove.

use bundle_core::{Answer, Core, LineList};
use cell_types::{CellText, Name};
use doc_keeper::SureKeeper;
use doc_model::UserList;
use grist_json::{UserLine, read_request, read_user};
use std::alloc::{AllocError, Global};
use std::thread::Threads;
use watch_box::MemWatcher;
use watched_core::WatchedCore;

const USER: &str = r#"{"user":{"access":"editors","email":"e","id":2,"name":"Ed","token":"te"}}"#;

const OPENS: &str = r#"{"method":"openDoc","token":"te"}"#;

const ADDS: &str =
    r#"{"actions":[["AddRecord","Table1",null,{"A":1}]],"method":"applyUserActions"}"#;

const ASKS: &str = r#"{"method":"sync"}"#;

type WatchedByMem = WatchedCore<SureKeeper, MemWatcher>;

fn name(alloc: Global, text: &str) -> Result<Name, AllocError> {
    Name::try_new(CellText::copy_of(alloc, text)?).ok_or(AllocError)
}

fn users(alloc: Global) -> Result<UserList, AllocError> {
    let mut users = UserList::new(alloc);
    let UserLine::User(user) = read_user(alloc, USER.as_bytes())? else {
        return Err(AllocError);
    };
    match users.push(user) {
        Ok(()) => Ok(users),
        Err(_) => Err(AllocError),
    }
}

// What a session is given at a line of its own.
fn ask(
    alloc: Global,
    core: &mut WatchedByMem,
    session: &str,
    line: &str,
) -> Result<LineList, AllocError> {
    let session = name(alloc, session)?;
    let Ok(request) = read_request(alloc, line.as_bytes()) else {
        return Err(AllocError);
    };
    match core.step(&session, request, 0)? {
        Answer::Lines(lines) => Ok(lines),
        Answer::Full => Err(AllocError),
    }
}

fn new_core<R: Threads + Sync>(rt: &R, alloc: Global) -> Result<WatchedByMem, AllocError> {
    match Core::start(rt, alloc, users(alloc)?, SureKeeper::new(alloc)) {
        Ok(core) => Ok(WatchedCore::new(alloc, core)),
        Err(_) => Err(AllocError),
    }
}

// Attaches a watcher that fails at these lines.
fn add(
    alloc: Global,
    core: &mut WatchedByMem,
    session: &str,
    failing: Vec<u64>,
) -> Result<u32, AllocError> {
    let watcher = MemWatcher::new(alloc, 4, 1_024, failing)?;
    if core.attached() >= 9 {
        return Err(AllocError);
    }
    match core.attach(name(alloc, session)?, watcher) {
        Ok(number) => Ok(number),
        Err(_) => Err(AllocError),
    }
}

// Takes the watcher of that number out, and says whether it took the first so many of these lines.
fn took(core: &mut WatchedByMem, number: u32, given: &LineList, count: usize) -> bool {
    let Some(watcher) = core.detach(number) else {
        return false;
    };
    watcher.lines().len() == count
        && given.as_slice().len() == count + 1
        && watcher.lines().iter().zip(given.as_slice().iter()).all(|(line, given)| line.as_slice()
            == given.as_str().as_bytes())
}

// Whether watchers are numbered from 0, and one that is taken out leaves its number to none.
fn are_numbered(alloc: Global, core: &mut WatchedByMem) -> Result<bool, AllocError> {
    let first = add(alloc, core, "s2", Vec::new(alloc))?;
    let second = add(alloc, core, "s2", Vec::new(alloc))?;
    let is_out = core.detach(first).is_some() && core.detach(first).is_none();
    let third = add(alloc, core, "s2", Vec::new(alloc))?;
    Ok(is_out && first == 0 && second == 1 && third == 2)
}

// Three watchers of `s2`, of which the second fails at its second line: numbers 3 to 5.
fn add_three(alloc: Global, core: &mut WatchedByMem) -> Result<(), AllocError> {
    let mut failing = Vec::new(alloc);
    failing.push(1)?;
    add(alloc, core, "s2", Vec::new(alloc))?;
    add(alloc, core, "s2", failing)?;
    add(alloc, core, "s2", Vec::new(alloc))?;
    Ok(())
}

// Two bundles of `s1`, of which a watcher of `s1` takes the second alone.
fn take_what_is_given(alloc: Global, core: &mut WatchedByMem) -> Result<bool, AllocError> {
    drop(ask(alloc, core, "s1", ADDS)?);
    add(alloc, core, "s1", Vec::new(alloc))?;
    let own = ask(alloc, core, "s1", ADDS)?;
    let theirs = ask(alloc, core, "s2", ASKS)?;
    Ok(
        took(core, 3, &theirs, 2)
            && core.detach(4).is_none()
            && took(core, 5, &theirs, 2)
            && took(core, 6, &own, 1),
    )
}

// Both sessions open, and then what is tried.
fn play(alloc: Global, core: &mut WatchedByMem) -> Result<bool, AllocError> {
    drop(ask(alloc, core, "s1", OPENS)?);
    drop(ask(alloc, core, "s2", OPENS)?);
    let are_numbered = are_numbered(alloc, core)?;
    add_three(alloc, core)?;
    Ok(are_numbered && take_what_is_given(alloc, core)?)
}

fn played<R: Threads + Sync>(rt: &R, alloc: Global) -> Result<bool, AllocError> {
    let mut core = new_core(rt, alloc)?;
    play(alloc, &mut core)
}

#[test]
fn watchers_take_what_sessions_are_given(rt: HostRuntime) {
    assert!(rt; matches!(played(&rt, rt.alloc()), Ok(true)));
}
