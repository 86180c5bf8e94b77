//! The index of a session among the open ones, which stand by name.

ghost use Rattle.std.specs.Prelude.{◌≡◌, ◌<◌, ◌≤◌, take, drop, suc, length, MatchResult, slice_index};
ghost use Rattle.doc_model.specs.ByIds.{IsByIds};
ghost use Rattle.bundle_core.specs.Dispatch.{IsSpot, kept_name, Finds, Misses};

use crate::session::OpenSession;
use cell_types::Name;
use std::cmp::Ordering;

/// The index of the session, or the index where it would stand.
///
/// Cost: linear in the open sessions before it.
pub(crate) fn index_of(sessions: &[OpenSession], name: &Name) -> Result<usize, usize>
    requires { IsByIds kept_name sessions.now }
    ensures { MatchResult result
        (λ p. Finds name.now sessions.now p)
        (λ p. Misses name.now sessions.now p) }
{
    for index in 0..sessions.len() {
        let session = &sessions[index];
        match session.name().cmp(name) {
            Ordering::Less => {}
            Ordering::Equal => return Ok(index),
            Ordering::Greater => return Err(index),
        }
    }
    Err(sessions.len())
}
