//! The users that the lines at the front of the input say.
ghost use Rattle.std.specs.Prelude.{◌≡◌, ◌≤◌, ◌<◌, ◌+◌, ◌*◌, ℕ, List, Option, [], None, IfOk, Ok, IsErrOf, length};
ghost use Rattle.io_edges.specs.Causes.{Rose};
ghost use Rattle.io_edges.specs.Reading.{work_left};
ghost use Rattle.grist_run.specs.UserLines.{adds_once, has_token, saying};
ghost use Rattle.grist_run.specs.Hearing.{IsHeard, HeardSoFar, HearsLine, HearsUsers};

use crate::reading::read_next;
use crate::status::Status;
use doc_model::{User, UserList};
use grist_json::{UserLine, read_user};
use io_edges::{LineReader, NextLine, Source, is_blank, is_long};
use std::alloc::{AllocError, Global};

/// How many users there may be.
const MAX_USERS: usize = 4_096;

/// What a line says of users.
#[derive(Clone, Copy)]
enum Heard {
    /// One user more, or nothing: then it is white space.
    Users,
    /// A user who is none, has another's token or is one too many.
    BadUser,
    /// That the users end.
    Request,
}

/// The users of a run, what the reader gave behind them, which is a line that asks for something or
/// the end of the input, and the number of that line.
///
/// Units: lines are numbered from 1.
#[derive(Drop)]
pub struct Front {
    pub users: UserList,
    pub next: NextLine,
    pub number: u64,
}

fn has_token(users: &[User], token: &str) -> bool
    ensures { result ≡ has_token users.now token.now }
{
    users.iter().any(|user| user.token.as_str() == token)
}

// Adds a user, unless another has the token or there are as many users as may be.
fn add_once(users: &mut Vec<User>, user: User) -> Result<Heard, AllocError>
    ensures { IfOk result (λ h. IsHeard h
        (adds_once users.old.items user) users.old.items users.new.items) }
{
    if has_token(users, user.token.as_str()) || users.len() >= MAX_USERS {
        return Ok(Heard::BadUser);
    }
    users.push(user)?;
    Ok(Heard::Users)
}

// Hears what a line says of users.
fn hear(alloc: Global, users: &mut Vec<User>, line: &[u8]) -> Result<Heard, AllocError>
    ensures { IfOk result (λ h. IsHeard h
        (saying users.old.items line.now) users.old.items users.new.items) }
{
    if is_long(line) {
        return Ok(Heard::Request);
    }
    if is_blank(line) {
        return Ok(Heard::Users);
    }
    match read_user(alloc, line)? {
        UserLine::User(user) => add_once(users, user),
        UserLine::Bad => Ok(Heard::BadUser),
        UserLine::Other => Ok(Heard::Request),
    }
}

// Reads one line and hears what it says of users. `None` is that there may be more.
fn hear_next<S: Source>(
    alloc: Global,
    users: &mut Vec<User>,
    reader: &mut LineReader,
    input: &mut S,
    number: u64,
) -> Result<Option<NextLine>, Status>
    ensures hears { (left : Option (List ℕ))
        → HeardSoFar left (S.left input.old) users.old.items reader.old number
        → HearsLine result left (S.left input.new) users.new.items reader.new number }
    ensures falls { result ≡ Ok None → work_left reader.new < work_left reader.old }
    ensures later { S.faults input.old ≤ S.faults input.new }
    ensures fault { IsErrOf result Status.ReadFault
        → Rose (S.faults input.old) (S.faults input.new) }
{
    match read_next(reader, input) {
        Ok(NextLine::End) => Ok(Some(NextLine::End)),
        Ok(NextLine::Last) => match hear(alloc, users, reader.line()) {
            Ok(Heard::Users) => Ok(Some(NextLine::End)),
            Ok(Heard::BadUser) => Err(Status::BadUsers { line: number }),
            Ok(Heard::Request) => Ok(Some(NextLine::Last)),
            Err(_) => Err(Status::NoMemory),
        },
        Ok(NextLine::Line) => match hear(alloc, users, reader.line()) {
            Ok(Heard::Users) => Ok(None),
            Ok(Heard::BadUser) => Err(Status::BadUsers { line: number }),
            Ok(Heard::Request) => Ok(Some(NextLine::Line)),
            Err(_) => Err(Status::NoMemory),
        },
        Err(status) => Err(status),
    }
}

/// Reads the users at the front of the input.
///
/// Cost: each token is compared with those before it.
pub fn read_users<S: Source>(
    alloc: Global,
    reader: &mut LineReader,
    input: &mut S,
) -> Result<Front, Status>
    requires ahead { reader.old.ahead ≡ [] }
    requires turns { reader.old.turns ≡ 0 }
    ensures hears { HearsUsers result (S.left input.old) (S.left input.new) reader.new }
    ensures later { S.faults input.old ≤ S.faults input.new }
    ensures fault { IsErrOf result Status.ReadFault
        → Rose (S.faults input.old) (S.faults input.new) }
{
    let mut users = Vec::new(alloc);
    let mut number = 1;
    loop {
        match hear_next(alloc, &mut users, reader, input, number) {
            Ok(None) => number += 1,
            Ok(Some(next)) => {
                let users = UserList::from(users);
                return Ok(Front {
                    users,
                    next,
                    number,
                });
            }
            Err(status) => return Err(status),
        }
    }
}
