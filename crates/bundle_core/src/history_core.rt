//! The core: a document and its sessions as a history of requests leads to them.

ghost use Rattle.std.specs.Prelude.{ℕ, ◌≡◌, ◌≤◌, true, false, List, [], ◌∷◌, ◌++◌, IfErr, IfOk, IsOk, OnErr, ◌+◌, length, map, nat_lt, option_map, Some};
ghost use Rattle.std.specs.Option.{option_copied};
ghost use Rattle.std.specs.Str.{bytes_eq};
ghost use Rattle.io_edges.specs.Causes.{Rose};
ghost use Rattle.doc_model.specs.DocumentLaws.{IsWhole};
ghost use Rattle.doc_model.specs.NewDocument.{new_document};
ghost use Rattle.doc_model.specs.WellFormed.{asks_well_formed};
ghost use Rattle.doc_model.specs.declared.request.Request.TheVariants.{Gone};
ghost use Rattle.doc_opening.specs.Opening.{FirstBad};
ghost use Rattle.doc_opening.specs.declared.opening.StartCause.TheVariants.{BadStore, StoreFault};
ghost use Rattle.bundle_core.specs.Core.{bytes_left, entry_of, history_bound, is_full, is_gone, is_open_in, marked, size_bound};
ghost use Rattle.bundle_core.specs.LastChange.{IsLast};
ghost use Rattle.bundle_core.specs.KeptCore.{IsKeeping, IsStarted, IsTaken, IsUnchanged, state_now};
ghost use Rattle.bundle_core.specs.Loading.{IsLoaded};
ghost use Rattle.bundle_core.specs.MadeLines.{IsMade, is_more, last_of, lines_made};
ghost use Rattle.bundle_core.specs.SessionState.{open_of};
ghost use Rattle.bundle_core.specs.State.{mailbox_of, opening, records_kept, session_of};
ghost use Rattle.bundle_core.specs.Steps.{IsAnswer};

use crate::dispatch::{Turn, answer};
use crate::last_change::LastChange;
use crate::loading::{Loaded, Opening, load};
use crate::past::CorePast;
use crate::ruled_document::RuledDocument;
use crate::session::OpenSession;
use crate::session_index::index_of;
use action_limits::Tally;
use bundle_records::RecordLedger;
use cell_types::{Name, Sequence};
use column_store::ColumnTables;
use doc_keeper::Keeper;
use doc_model::{Entry, EntryList, Request, UserList};
use doc_opening::StartCause;
use evaluated_doc::Doc;
use grist_json::Line;
use std::alloc::{AllocError, Global};
use std::marker::Model;
use std::thread::Threads;

/// How many entries a history may have before a step answers that it is full.
pub const MAX_ENTRIES: usize = 1_048_576;

/// How many bytes the lines of a history may have together.
pub const MAX_HISTORY_BYTES: u32 = 268_435_456;

/// The lines that are given at an entry.
pub type LineList = Sequence<Line>;

/// What a step answers.
#[derive(Drop)]
pub enum Answer {
    /// The lines that the session is given, in this order.
    Lines(LineList),
    /// The history has no room for the request.
    Full,
}

/// Why a core was not started, with its keeper.
#[derive(Drop)]
pub struct StartFault<K: Keeper> {
    pub cause: StartCause,
    pub keeper: K,
}

/// What a core leaves: its history, and its keeper as it is.
#[derive(Drop)]
pub struct Finished<K: Keeper> {
    pub history: EntryList,
    pub keeper: K,
}

/// A document, its open sessions, its history, and the keeper of its accepted bundles. It is seen
/// as its users, the document that it began with and the history, all else being what that leads
/// to, and beside them what is told of its keeper.
#[derive(Drop)]
pub struct Core<K: Keeper> {
    alloc: Global,
    users: UserList,
    opening: Opening,
    doc: RuledDocument<ColumnTables>,
    tally: Tally,
    sessions: Vec<OpenSession>,
    entries: Vec<Entry>,
    bytes_left: Option<u32>,
    records: RecordLedger<K>,
    opened: u32,
    before: u64,
    last: Option<LastChange>,
}

impl<K: Keeper> Model for Core<K> {
    ghost use Rattle.std.specs.Prelude.{◌+◌, ◌≤◌, length, option_map, take, vec_capacity, vec_len};
    ghost use Rattle.bundle_core.specs.Core.{IsCore, document_of};
    ghost use Rattle.bundle_core.specs.KeptCore.{IsKeptFrom, KeptCore};
    ghost use Rattle.bundle_core.specs.LastChange.{IsLast};

    ghost Value = { KeptCore };

    ghost view = { λ c. record {
      state = record {
        users = c.users;
        start = document_of c.opening;
        history = c.entries.items;
      };
      kept = record {
        opening = option_map (take c.opened) c.records.told;
        before = c.before;
        records = c.records.told;
        faults = c.records.faults;
      };
    } };

    ghost invariant = { λ c. IsCore c.users (document_of c.opening) c.entries.items c.doc
        c.tally c.sessions.items c.bytes_left
        × (vec_len c.entries + length c.sessions.items ≤ vec_capacity c.entries)
        × IsKeptFrom c.users (document_of c.opening) c.entries.items c.opened c.before c.records
        c.doc
        × IsLast c.users (document_of c.opening) c.entries.items c.doc c.last };
}

impl<K: Keeper> Core<K> {
    /// A core for these users, over the document that the records of the keeper make of the new
    /// one. They are loaded once, and the document is evaluated once.
    ///
    /// Errors: `StoreFault`, where the keeper's count of faults rose; `BadStore`, of the first
    /// record that is bad at its place; out of memory. The keeper is handed back.
    pub fn start<R: Threads + Sync>(
        rt: &R,
        alloc: Global,
        users: UserList,
        keeper: K,
    ) -> Result<Core<K>, StartFault<K>>
        ensures ok { IfOk result (λ c. IsStarted users (K.records keeper) (K.failures keeper) c) }
        ensures same { IfErr result (λ f. K.records f.keeper ≡ K.records keeper) }
        ensures later { IfErr result (λ f. K.failures keeper ≤ K.failures f.keeper) }
        ensures fault { IfErr result (λ f. f.cause ≡ StoreFault
            → Rose (K.failures keeper) (K.failures f.keeper)) }
        ensures bad { IfErr result (λ f. (n : ℕ) → f.cause ≡ BadStore n
            → FirstBad (K.records keeper) new_document n) }
    {
        let mut keeper = keeper;
        match load(rt, alloc, &mut keeper) {
            Ok(loaded) => Ok(Core::of(alloc, users, loaded, keeper)),
            Err(cause) => Err(StartFault { cause, keeper }),
        }
    }

    // A core before anything was asked of it.
    fn of(alloc: Global, users: UserList, loaded: Loaded, keeper: K) -> Self
        requires { IsLoaded (K.records keeper) loaded }
        ensures { IsStarted users (K.records keeper) (K.failures keeper) result }
    {
        let Loaded {
            opening,
            doc,
            tally,
            count,
        } = loaded;
        let records = RecordLedger::new(keeper, count as u64);
        let before = records.faults();
        Core {
            alloc,
            users,
            opening,
            doc,
            tally,
            sessions: Vec::new(alloc),
            entries: Vec::new(alloc),
            bytes_left: Some(MAX_HISTORY_BYTES),
            records,
            opened: count,
            before,
            last: None,
        }
    }

    /// Takes one request of a session, and answers with the lines that the session is given. A
    /// bundle that is accepted is kept before it takes effect; where the keeper fails, its session
    /// is told so, and nothing else changes.
    ///
    /// Units: the size is the byte count of the request's line.
    /// Errors: `Full` where the history has no room for the request; it changes nothing.
    /// Memory: all of it is taken before the keeper is called. Where there is none, nothing
    /// changes, the keeper's count of faults neither. A session that goes away takes none: as it
    /// was opened, room was made for the entry of its end, which has its name.
    pub fn step(
        &mut self,
        session: &Name,
        request: Request,
        size: u32,
    ) -> Result<Answer, AllocError>
        requires well_formed { asks_well_formed request ≡ true }
        ensures ok { IfOk result (λ a.
            IsAnswer self.old self.new session.now request size a) }
        ensures err { OnErr result (IsUnchanged self.old self.new) }
        ensures gone { is_gone request ≡ true → IsOk result }
    {
        if is_gone(&request) {
            drop(request);
            return Ok(Answer::Lines(self.go_away(session, size)));
        }
        if self.is_full(&request, size) {
            drop(request);
            return Ok(Answer::Full);
        }
        let entry = kept_entry(session, request, size)?;
        Ok(Answer::Lines(self.take(entry)?))
    }

    // The connection of the session ended: where it is open, its name goes into the entry.
    fn go_away(&mut self, session: &Name, size: u32) -> LineList
        ensures { IsTaken self.old self.new session.now Gone size result }
    {
        let nothing = LineList::from(Vec::new(self.alloc));
        let Ok(index) = index_of(&self.sessions, session) else {
            return nothing;
        };
        let entry = last_entry(self.sessions.remove(index), size);
        self.bytes_left = left_after(self.bytes_left, size);
        self.entries.push_reserved(entry);
        self.last = None;
        nothing
    }

    // Takes an entry that there is room for. There is room then for the end of each open session.
    fn take(&mut self, entry: Entry) -> Result<LineList, AllocError>
        requires room { is_full self.old.state.history entry.request entry.size ≡ false }
        requires stays { is_gone entry.request ≡ false }
        requires kept { entry.kept ≡ true }
        requires well_formed { asks_well_formed entry.request ≡ true }
        ensures ok { IfOk result (λ lines.
            IsTaken self.old self.new entry.session entry.request entry.size lines) }
        ensures err { OnErr result (IsUnchanged self.old self.new) }
    {
        self.entries.reserve(self.sessions.len() + 2)?;
        let users = self.users.as_slice();
        let turn = answer(
            self.alloc,
            users,
            &mut self.doc,
            &mut self.tally,
            &mut self.sessions,
            &mut self.records,
            &entry,
        )?;
        let Turn {
            lines,
            kept,
            change,
        } = turn;
        self.bytes_left = left_after(self.bytes_left, entry.size);
        self.entries.push_reserved(with_mark(entry, kept));
        self.last = change;
        Ok(LineList::from(lines))
    }

    /// The entries so far.
    pub fn history(&self) -> &[Entry]
        ensures entries { result.now ≡ self.now.state.history }
        ensures bounded { length result.now ≤ history_bound }
        ensures keeping { IsKeeping self.now }
    {
        self.entries.as_slice()
    }

    /// Its users, its opening and its entries as they are now, for clauses alone.
    ///
    /// Memory: none.
    pub fn past(&self) -> CorePast
        ensures { result ≡ self.now.state }
    {
        CorePast::of(&self.users, &self.opening, &self.entries)
    }

    /// The bundle that the last entry was, where that was an accepted bundle.
    ///
    /// Memory: none.
    pub fn last_change(&self) -> Option<&LastChange>
        ensures { IsLast self.now.state.users self.now.state.start self.now.state.history
            (state_now self.now.state).document (option_copied result) }
    {
        self.last.as_ref()
    }

    /// The sessions that are open, by name.
    ///
    /// Memory: none.
    pub fn open_sessions(&self) -> &[OpenSession]
        ensures { (state_now self.now.state).open_sessions
            ≡ map (open_of (state_now self.now.state).document) result.now }
    {
        self.sessions.as_slice()
    }

    /// The present document, with its cells evaluated.
    ///
    /// Memory: none.
    pub fn document(&self) -> &Doc<ColumnTables>
        ensures value { result.now ≡ (state_now self.now.state).document }
        ensures whole { IsWhole result.now }
    {
        self.doc.evaluated()
    }

    /// How many bundles of the history were accepted.
    ///
    /// Memory: none.
    pub fn bundles(&self) -> u64
        ensures { result ≡ records_kept self.now.state.users (opening self.now.state.start)
            self.now.state.history }
    {
        self.records.count() - self.opened as u64
    }

    /// Ends the core, and gives its history, and its keeper as it is.
    ///
    /// Memory: none.
    pub fn finish(self) -> Finished<K>
        ensures history { result.history ≡ self.state.history }
        ensures records { K.records result.keeper ≡ self.kept.records }
        ensures faults { K.failures result.keeper ≡ self.kept.faults }
        ensures keeping { IsKeeping self }
    {
        Finished {
            history: EntryList::from(self.entries),
            keeper: self.records.into_keeper(),
        }
    }

    /// Whether the session is open.
    ///
    /// Memory: none. Cost: linear in the open sessions before it.
    pub fn has_open(&self, session: &Name) -> bool
        ensures { result ≡ is_open_in self.now.state session.now }
    {
        index_of(&self.sessions, session).is_ok()
    }

    /// How many stream lines were made for the session, where it is open.
    ///
    /// Memory: none. Cost: that of `has_open`.
    pub fn lines_made(&self, session: &Name) -> Option<u64>
        ensures { result ≡ lines_made self.now.state session.now }
    {
        match self.session_named(session) {
            Some(found) => Some(found.made()),
            None => None,
        }
    }

    /// The stream line that the last entry made for a session, by how many had been made for it
    /// before, and by the lines that were given at that entry.
    ///
    /// Memory: none. Cost: that of `has_open`.
    pub fn line_made<'a>(
        &'a self,
        session: &Name,
        before: Option<u64>,
        given: &'a [Line],
    ) -> Option<&'a Line>
        ensures { IsMade self.now.state given.now session.now before
            (option_map (λ l. l.now) result) }
    {
        if !is_more(before, self.lines_made(session)) {
            return None;
        }
        if self.is_last_of(session) {
            before_last(given)
        } else {
            self.last_waiting(session)
        }
    }

    // The session, where it is open.
    fn session_named(&self, session: &Name) -> Option<&OpenSession>
        ensures { option_map (λ x. open_of (state_now self.now.state).document x.now) result
            ≡ session_of session.now (state_now self.now.state) }
    {
        match index_of(&self.sessions, session) {
            Ok(index) => Some(&self.sessions[index]),
            Err(_) => None,
        }
    }

    // The last of the lines that wait for a session.
    fn last_waiting(&self, session: &Name) -> Option<&Line>
        ensures { option_map (λ l. l.now) result
            ≡ last_of (mailbox_of session.now (state_now self.now.state)) }
    {
        match self.session_named(session) {
            Some(found) => found.last_waiting(),
            None => None,
        }
    }

    // Whether the last entry is of that session.
    fn is_last_of(&self, session: &Name) -> bool
        ensures { (es : List Entry) (e : Entry) → self.now.state.history ≡ es ++ e ∷ []
            → result ≡ bytes_eq e.session session.now }
    {
        match self.history().last() {
            Some(entry) => entry.session == *session,
            None => false,
        }
    }

    fn is_full(&self, request: &Request, size: u32) -> bool
        ensures { result ≡ is_full self.now.state.history request.now size }
    {
        !is_gone(request) && (self.entries.len() >= MAX_ENTRIES || is_past(self.bytes_left, size))
    }
}

// Whether more were counted after.
fn is_more(before: Option<u64>, after: Option<u64>) -> bool
    ensures { result ≡ is_more before after }
{
    match (before, after) {
        (Some(before), Some(after)) => before < after,
        _ => false,
    }
}

// The line before the last.
fn before_last(lines: &[Line]) -> Option<&Line>
    ensures { (front : List (List ℕ)) (line last : List ℕ) → lines.now ≡ front ++ line ∷ last ∷ []
        → option_map (λ l. l.now) result ≡ Some line }
{
    if lines.len() < 2 {
        return None;
    }
    lines.get(lines.len() - 2)
}

// The entry, kept or not.
fn with_mark(entry: Entry, kept: bool) -> Entry
    ensures { result ≡ marked entry kept }
{
    let Entry {
        session,
        request,
        size,
        kept: _,
    } = entry;
    Entry {
        session,
        request,
        size,
        kept,
    }
}

fn kept_entry(session: &Name, request: Request, size: u32) -> Result<Entry, AllocError>
    ensures { IfOk result (λ e. e ≡ entry_of session.now request size true) }
{
    match session.clone() {
        Ok(session) => Ok(Entry {
            session,
            request,
            size,
            kept: true,
        }),
        Err(fault) => {
            drop(request);
            Err(fault)
        }
    }
}

// The entry of the end of an open session.
fn last_entry(session: OpenSession, size: u32) -> Entry
    ensures { result ≡ entry_of session.session Gone size true }
{
    Entry {
        session: session.into_name(),
        request: Request::Gone,
        size,
        kept: true,
    }
}

/// Whether it is the end of a connection.
pub fn is_gone(request: &Request) -> bool
    ensures { result ≡ is_gone request.now }
{
    match request {
        Request::Gone => true,
        _ => false,
    }
}

fn is_past(left: Option<u32>, size: u32) -> bool
    ensures { (sum : ℕ) → left ≡ bytes_left sum → result ≡ nat_lt size_bound (sum + size) }
{
    match left {
        Some(left) => left < size,
        None => true,
    }
}

fn left_after(left: Option<u32>, size: u32) -> Option<u32>
    ensures { (sum : ℕ) → left ≡ bytes_left sum → result ≡ bytes_left (sum + size) }
{
    match left {
        Some(left) if size <= left => Some(left - size),
        _ => None,
    }
}
