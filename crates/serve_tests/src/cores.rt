//! A core with one user, and a gate round it.

ghost use Rattle.std.specs.Prelude.{◌≡◌, ◌<◌, ◌≤◌, All, IfOk, [], length};
ghost use Rattle.session_gate.specs.Gate.{IsPassOf};

use bundle_core::Core;
use cell_types::{CellText, Name};
use doc_keeper::SureKeeper;
use doc_model::UserList;
use grist_json::{UserLine, read_user};
use session_gate::{Gate, NoGate, PassList};
use std::alloc::{AllocError, Global};
use std::thread::Threads;
use watch_box::SureWatcher;
use watched_core::WatchedCore;

const USER: &str = r#"{"user":{"access":"editors","email":"e","id":2,"name":"Ed","token":"te"}}"#;

/// A session's name.
pub(crate) fn name_of(alloc: Global, text: &str) -> Result<Name, AllocError> {
    Name::try_new(CellText::copy_of(alloc, text)?).ok_or(AllocError)
}

fn users(alloc: Global) -> Result<UserList, AllocError> {
    let mut users = UserList::new(alloc);
    let UserLine::User(user) = read_user(alloc, USER.as_bytes())? else {
        return Err(AllocError);
    };
    match users.push(user) {
        Ok(()) => Ok(users),
        Err(_) => Err(AllocError),
    }
}

// A core whose watchers, where it has some, never fail.
type TestCore = WatchedCore<SureKeeper, SureWatcher>;

// A core over the new document, without watchers.
fn new_core<R: Threads + Sync>(rt: &R, alloc: Global) -> Result<TestCore, AllocError>
    ensures { IfOk result (λ c. c.core.state.history ≡ []) }
{
    match Core::start(rt, alloc, users(alloc)?, SureKeeper::new(alloc)) {
        Ok(core) => Ok(WatchedCore::new(alloc, core)),
        Err(_) => Err(AllocError),
    }
}

// A gate round a core.
fn gate_round(
    alloc: Global,
    core: TestCore,
    passes: u32,
) -> Result<(Gate<TestCore>, PassList<TestCore>), AllocError>
    requires { (0 < passes) × (passes ≤ 64) }
    ensures own { IfOk result (λ r. All (IsPassOf r.0) r.1) }
{
    match Gate::new(alloc, core, passes) {
        Ok(made) => Ok(made),
        Err(NoGate { machine: _ }) => Err(AllocError),
    }
}

/// A gate round a new core.
pub(crate) fn new_gate<R: Threads + Sync>(
    rt: &R,
    alloc: Global,
    passes: u32,
) -> Result<(Gate<TestCore>, PassList<TestCore>), AllocError>
    requires { (0 < passes) × (passes ≤ 64) }
    ensures own { IfOk result (λ r. All (IsPassOf r.0) r.1) }
{
    gate_round(alloc, new_core(rt, alloc)?, passes)
}
