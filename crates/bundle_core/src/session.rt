//! A session that is open: who holds it, and the lines that wait for it.
//!
//! | State | A request of its own | A bundle of others | Its connection ends |
//! |---|---|---|---|
//! | closed | `openDoc` opens it, all else is refused | nothing | nothing |
//! | open | answered, behind what waits; `closeDoc` closes it | told, or it lags | closed |
//! | lagging | told that it lags, behind what waits, and closed | nothing | closed |
//!
//! A session that is closed has no value here.

ghost use Rattle.std.specs.Prelude.{◌≡◌, ◌<◌, ◌≤◌, ◌+◌, ◌^◌, List, [], ◌∷◌, ◌++◌, length, map, option_map, option_to_list, None, false, IfOk, OnOk};
ghost use Rattle.std.specs.Option.{option_copied};
ghost use Rattle.doc_model.specs.declared.view.ViewAction.{ViewAction};
ghost use Rattle.bundle_core.specs.Fronts.{front_of};
ghost use Rattle.bundle_core.specs.Mailbox.{is_full};
ghost use Rattle.bundle_core.specs.MadeLines.{last_line};
ghost use Rattle.context_changes.specs.Known.{told_by};
ghost use Rattle.bundle_core.specs.SessionState.{IsReady, IsPrepared, IsEmptied, MayPost, line_for, posted_state};
ghost use Rattle.bundle_core.specs.Noting.{HasBundleRoom, MayBeUndone, log_after};
ghost use Rattle.undo_bundles.specs.BundleLog.{count, empty_log};

use crate::fronts::front_to;
use acl_rules::Ctx;
use cell_types::Name;
use doc_model::{StepList, User};
use grist_json::{Line, StreamFront};
use std::alloc::{AllocError, Global};
use std::marker::Model;
use std::mem;
use undo_bundles::BundleLog;

/// How many lines may wait for a session.
pub const MAX_WAITING_LINES: usize = 4_096;

/// How many bytes may wait for a session.
pub const MAX_WAITING_BYTES: u64 = 4_194_304;

/// What is noted of an accepted bundle: its inverse, and which bundle it undoes.
#[derive(Drop)]
pub(crate) struct BundleNote {
    pub inverse: StepList,
    pub undone: Option<u64>,
}

/// A session that is open.
///
/// A line is posted in two steps, so that running out of memory changes nothing: `prepare` makes
/// the line and the room for it, and `post`, which cannot fail, puts it behind those that wait.
#[derive(Drop)]
pub struct OpenSession {
    name: Name,
    user: User,
    log: BundleLog,
    made: u64,
    waiting: Vec<Line>,
    bytes: u64,
    lagging: bool,
    ready: Option<Line>,
}

impl Model for OpenSession {
    ghost use Rattle.std.specs.Prelude.{◌≡◌, ◌-◌, sum_by, length, vec_capacity, vec_len};
    ghost use Rattle.bundle_core.specs.SessionState.{SessionState};

    ghost Value = { SessionState };

    ghost view = { λ s. record {
      session = s.name;
      holder = record { user = s.user; log = s.log.log };
      made = s.made;
      waiting = s.waiting.items;
      lagging = s.lagging;
      ready = s.ready;
      room = vec_capacity s.waiting - vec_len s.waiting;
      note_room = s.log.room;
    } };

    ghost invariant = { λ s. s.bytes ≡ sum_by length s.waiting.items };
}

impl OpenSession {
    /// A session that has just been opened.
    pub(crate) fn new(alloc: Global, name: Name, user: User) -> Self
        ensures session { result.session ≡ name }
        ensures user { result.holder.user ≡ user }
        ensures log { result.holder.log ≡ empty_log }
        ensures made { result.made ≡ 0 }
        ensures waiting { result.waiting ≡ [] }
        ensures lagging { result.lagging ≡ false }
    {
        OpenSession {
            name,
            user,
            log: BundleLog::new(alloc),
            made: 0,
            waiting: Vec::new(alloc),
            bytes: 0,
            lagging: false,
            ready: None,
        }
    }

    /// A session that has just been opened by that name for that user.
    pub(crate) fn of(alloc: Global, name: &Name, user: &User) -> Result<Self, AllocError>
        ensures session { IfOk result (λ s. s.session ≡ name.now) }
        ensures user { IfOk result (λ s. s.holder.user ≡ user.now) }
        ensures log { IfOk result (λ s. s.holder.log ≡ empty_log) }
        ensures made { IfOk result (λ s. s.made ≡ 0) }
        ensures waiting { IfOk result (λ s. s.waiting ≡ []) }
        ensures lagging { IfOk result (λ s. s.lagging ≡ false) }
    {
        Ok(OpenSession::new(alloc, copy_name(name)?, copy_user(user)?))
    }

    /// Its name.
    pub fn name(&self) -> &Name
        ensures { result.now ≡ self.now.session }
    {
        &self.name
    }

    /// Its name, where all else of it is dropped.
    pub(crate) fn into_name(self) -> Name
        ensures { result ≡ self.session }
    {
        self.name
    }

    /// Whose it is.
    pub fn user(&self) -> &User
        ensures { result.now ≡ self.now.holder.user }
    {
        &self.user
    }

    /// How many of its bundles were accepted.
    pub(crate) fn bundles(&self) -> u64
        requires { count self.now.holder.log < 2 ^ 63 }
        ensures { result ≡ count self.now.holder.log }
    {
        self.log.count()
    }

    pub(crate) fn log(&self) -> &BundleLog
        ensures { result.now.log ≡ self.now.holder.log }
    {
        &self.log
    }

    /// Whether a line could not be made for it.
    pub fn is_lagging(&self) -> bool
        ensures { result ≡ self.now.lagging }
    {
        self.lagging
    }

    /// How many stream lines were made for it.
    pub(crate) fn made(&self) -> u64
        ensures { result ≡ self.now.made }
    {
        self.made
    }

    /// The last of the lines that wait.
    pub(crate) fn last_waiting(&self) -> Option<&Line>
        ensures { option_map (λ l. l.now) result ≡ last_line self.now.waiting }
    {
        self.waiting.last()
    }

    pub(crate) fn is_full(&self) -> bool
        ensures { result ≡ is_full self.now.waiting }
    {
        self.waiting.len() >= MAX_WAITING_LINES || self.bytes >= MAX_WAITING_BYTES
    }

    /// Makes room for lines. Nothing else changes, whatever the answer.
    pub(crate) fn make_room(&mut self, lines: usize) -> Result<(), AllocError>
        ensures prepared { IsPrepared self.old self.new }
        ensures ready { self.new.ready ≡ self.old.ready }
        ensures ok { OnOk result (lines ≤ self.new.room) }
    {
        self.waiting.reserve(lines)
    }

    /// Makes room for the two lines of an own bundle, and for its note. Nothing else changes,
    /// whatever the answer.
    pub(crate) fn make_bundle_room(&mut self) -> Result<(), AllocError>
        ensures prepared { IsPrepared self.old self.new }
        ensures ready { self.new.ready ≡ self.old.ready }
        ensures room { OnOk result (HasBundleRoom self.new) }
    {
        self.waiting.reserve(2)?;
        self.log.reserve()
    }

    /// Makes ready the line that tells what its user is told beside the user's context, unless that
    /// is nothing or the session lags: what stands before its number was printed for all sessions.
    /// Nothing that can be seen changes, whatever the answer.
    pub(crate) fn prepare(
        &mut self,
        alloc: Global,
        contexts: &[Ctx],
        fronts: &[Option<StreamFront>],
    ) -> Result<(), AllocError>
        requires few { self.old.made < 2 ^ 63 }
        ensures prepared { IsPrepared self.old self.new }
        ensures ok { OnOk result ((told : List (List ViewAction)) → fronts.now ≡ map front_of told
            → IsReady (told_by contexts.now told) self.new) }
    {
        self.make_room(1)?;
        self.ready = self.line_behind(alloc, front_to(contexts, fronts, &self.user))?;
        Ok(())
    }

    // The line with this front; none where there is no front, or where the session lags.
    fn line_behind(
        &self,
        alloc: Global,
        front: Option<&StreamFront>,
    ) -> Result<Option<Line>, AllocError>
        requires { self.now.made < 2 ^ 63 }
        ensures { IfOk result (λ line. (actions : List ViewAction)
            → option_copied front.entry ≡ front_of actions → line ≡ line_for actions self.now) }
    {
        match front {
            Some(front) if !self.lagging => Ok(Some(front.line(alloc, self.made + 1)?)),
            _ => Ok(None),
        }
    }

    /// Puts the line that was made ready, where there is one, behind those that wait. Where too
    /// much waits, the session lags from now on.
    pub(crate) fn post(&mut self)
        requires { MayPost self.old }
        ensures { self.new ≡ posted_state self.old }
    {
        let Some(line) = self.ready.take() else {
            return;
        };
        if self.is_full() {
            self.lagging = true;
            return;
        }
        self.bytes += line.as_str().len() as u64;
        self.waiting.push_reserved(line);
        self.made += 1;
    }

    /// Gives the lines that wait, and then the reply.
    pub(crate) fn give(&mut self, alloc: Global, reply: Line) -> Vec<Line>
        requires { 0 < self.old.room }
        ensures lines { result.items ≡ self.old.waiting ++ reply ∷ [] }
        ensures emptied { IsEmptied self.old self.new }
        ensures made { self.new.made ≡ self.old.made }
        ensures log { self.new.holder.log ≡ self.old.holder.log }
    {
        let mut lines = mem::replace(&mut self.waiting, Vec::new(alloc));
        self.bytes = 0;
        lines.push_reserved(reply);
        lines
    }

    /// Gives the lines that wait, the line of the session's own bundle that was made ready, and
    /// then the reply, and notes the bundle.
    pub(crate) fn give_bundle(&mut self, alloc: Global, reply: Line, note: BundleNote) -> Vec<Line>
        requires room { HasBundleRoom self.old }
        requires few { self.old.made < 2 ^ 63 }
        requires few_bundles { count self.old.holder.log < 2 ^ 63 }
        requires own { MayBeUndone note.undone self.old.holder.log }
        ensures lines { result.items ≡ self.old.waiting ++ option_to_list self.old.ready
            ++ reply ∷ [] }
        ensures emptied { IsEmptied self.old self.new }
        ensures made { self.new.made ≡ self.old.made + length (option_to_list self.old.ready) }
        ensures log { self.new.holder.log ≡ log_after note self.old.holder.log }
    {
        let mut lines = mem::replace(&mut self.waiting, Vec::new(alloc));
        self.bytes = 0;
        if let Some(line) = self.ready.take() {
            lines.push_reserved(line);
            self.made += 1;
        }
        note_in(&mut self.log, note);
        lines.push_reserved(reply);
        lines
    }

    /// The lines that wait, and then the reply: the last that the session is given.
    pub(crate) fn leave(self, reply: Line) -> Vec<Line>
        requires { 0 < self.room }
        ensures { result.items ≡ self.waiting ++ reply ∷ [] }
    {
        let mut lines = self.waiting;
        lines.push_reserved(reply);
        lines
    }
}

// Notes an accepted bundle, and marks the one that it undoes.
#[tactic(auto, using(undo_bundles::proofs::LogLaws::marked_count))]
fn note_in(log: &mut BundleLog, note: BundleNote)
    requires room { 0 < log.old.room }
    requires few { count log.old.log < 2 ^ 63 }
    requires own { MayBeUndone note.undone log.old.log }
    ensures { log.new.log ≡ log_after note log.old.log }
{
    if let Some(number) = note.undone {
        log.mark_undone(number);
        log.note(note.inverse);
    } else {
        log.note(note.inverse);
    }
}

fn copy_name(name: &Name) -> Result<Name, AllocError>
    ensures { IfOk result (λ n. n ≡ name.now) }
{
    name.clone()
}

/// A copy of the user.
pub(crate) fn copy_user(user: &User) -> Result<User, AllocError>
    ensures { IfOk result (λ u. u ≡ user.now) }
{
    user.clone()
}
