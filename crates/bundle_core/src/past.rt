//! A core's history as it once was, for clauses alone.
ghost use Rattle.std.specs.Prelude.{◌≡◌};
ghost use Rattle.bundle_core.specs.Core.{document_of};

use crate::loading::Opening;
use doc_model::{Entry, UserList};
use std::marker::Model;
use std::snapshot::Snapshot;

/// The users, the opening and the entries that a core had. It has no bytes, and it is seen as the
/// state of that core.
#[derive(Drop)]
pub struct CorePast {
    users: Snapshot<UserList>,
    opening: Snapshot<Opening>,
    entries: Snapshot<Vec<Entry>>,
}

impl Model for CorePast {
    ghost use Rattle.bundle_core.specs.Core.{CoreState, document_of};

    ghost Value = { CoreState };

    ghost view = { λ p. record {
      users = p.users.value;
      start = document_of p.opening.value;
      history = p.entries.value.items;
    } };
}

impl CorePast {
    pub(crate) fn of(users: &UserList, opening: &Opening, entries: &Vec<Entry>) -> CorePast
        ensures { result ≡ record {
          users = users.now;
          start = document_of opening.now;
          history = entries.now.items;
        } }
    {
        CorePast {
            users: Snapshot::of(users),
            opening: Snapshot::of(opening),
            entries: Snapshot::of(entries),
        }
    }
}
