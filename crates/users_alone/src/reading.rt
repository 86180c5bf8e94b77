//! The users of an input in which they may stand alone.
ghost use Rattle.std.specs.Prelude.{◌≡◌, ◌≤◌, [], IsErrOf};
ghost use Rattle.io_edges.specs.Causes.{Rose};
ghost use Rattle.users_alone.specs.UsersAlone.{HearsAlone};

use doc_model::UserList;
use grist_run::{Front, Status, read_users};
use io_edges::{LineReader, NextLine, Source};
use std::alloc::Global;

/// Reads the users of the whole input.
///
/// Errors: those of the reading, and `BadUsers` at the first line that is no user line or a bad
/// one.
pub fn read_users_alone<S: Source>(
    alloc: Global,
    reader: &mut LineReader,
    input: &mut S,
) -> Result<UserList, Status>
    requires ahead { reader.old.ahead ≡ [] }
    requires turns { reader.old.turns ≡ 0 }
    ensures hears { HearsAlone result (S.left input.old) (S.left input.new) }
    ensures later { S.faults input.old ≤ S.faults input.new }
    ensures fault { IsErrOf result Status.ReadFault
        → Rose (S.faults input.old) (S.faults input.new) }
{
    match read_users(alloc, reader, input) {
        Ok(
            Front {
                users,
                next: NextLine::End,
                number: _,
            },
        ) => Ok(users),
        Ok(
            Front {
                users: _,
                next: _,
                number,
            },
        ) => Err(Status::BadUsers { line: number }),
        Err(status) => Err(status),
    }
}
