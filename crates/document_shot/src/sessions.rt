//! The open sessions of a shot.

ghost use Rattle.std.specs.Prelude.{◌≡◌, find, map, IfOk};
ghost use Rattle.std.specs.Option.{option_copied};
ghost use Rattle.std.specs.Str.{bytes_eq};
ghost use Rattle.bundle_core.specs.KeptCore.{state_now};
ghost use Rattle.document_shot.specs.Shots.{shown_as, shown_session};

use bundle_core::{Core, OpenSession};
use cell_types::Name;
use doc_keeper::Keeper;
use doc_model::User;
use std::alloc::{AllocError, Global};

/// A session that is open: its name, whose it is, and whether it lags.
#[derive(Drop)]
pub struct ShotSession {
    pub name: Name,
    pub user: User,
    pub lagging: bool,
}

// A session of that name.
fn session_of(name: &Name, user: &User, lagging: bool) -> Result<ShotSession, AllocError>
    ensures { IfOk result
        (λ x. x ≡ record { name = name.now; user = user.now; lagging = lagging }) }
{
    let name = name.clone()?;
    match user.clone() {
        Ok(user) => Ok(ShotSession {
            name,
            user,
            lagging,
        }),
        Err(error) => {
            drop(name);
            Err(error)
        }
    }
}

/// A copy of sessions.
pub(crate) fn copy_sessions(
    alloc: Global,
    sessions: &[ShotSession],
) -> Result<Vec<ShotSession>, AllocError>
    ensures { IfOk result (λ l. l.items ≡ sessions.now) }
{
    let mut copies = Vec::with_capacity(alloc, sessions.len())?;
    for session in sessions {
        copies.push(session_of(&session.name, &session.user, session.lagging)?)?;
    }
    Ok(copies)
}

// The open sessions, as a shot has them.
fn shown_sessions(alloc: Global, sessions: &[OpenSession]) -> Result<Vec<ShotSession>, AllocError>
    ensures { IfOk result (λ l. l.items ≡ map shown_as sessions.now) }
{
    let mut shown = Vec::with_capacity(alloc, sessions.len())?;
    for session in sessions {
        shown.push(session_of(session.name(), session.user(), session.is_lagging())?)?;
    }
    Ok(shown)
}

/// The open sessions of a core, by name.
pub(crate) fn open_sessions<K: Keeper>(
    alloc: Global,
    core: &Core<K>,
) -> Result<Vec<ShotSession>, AllocError>
    ensures { IfOk result
        (λ l. l.items ≡ map shown_session (state_now core.now.state).open_sessions) }
{
    shown_sessions(alloc, core.open_sessions())
}

/// The session of that name.
pub(crate) fn session_named<'a>(sessions: &'a [ShotSession], name: &Name) -> Option<&'a ShotSession>
    ensures { option_copied result ≡ find (λ x. bytes_eq x.name name.now) sessions.now }
{
    sessions.iter().find(|session| session.name == *name)
}
