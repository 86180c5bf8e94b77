//! A generated run: the entries of a script, asked for one after the other, and summed up.
ghost use Rattle.std.specs.Prelude.{◌≡◌, ◌≤◌, ◌<◌, ◌+◌, ℕ, [], ◌∷◌, true, false, IfErr, IfOk, OnOk, vec_capacity, if◌then◌else◌};
ghost use Rattle.doc_model.specs.NewDocument.{new_document};
ghost use Rattle.doc_model.specs.WellFormed.{asks_well_formed};
ghost use Rattle.doc_model.specs.declared.request.Request.TheVariants.{Gone};
ghost use Rattle.doc_opening.specs.Opening.{FirstBad};
ghost use Rattle.io_edges.specs.Causes.{Rose};
ghost use Rattle.run_generator.specs.Script.{first_session, script, second_session};
ghost use Rattle.run_generator.specs.Stages.{row_bound};
ghost use Rattle.bundle_core.specs.MadeLines.{lines_made};
ghost use Rattle.grist_run.specs.Admission.{admitted, all_asked, takes_all};
ghost use Rattle.grist_run.specs.Asking.{AreCounted, StopsAsking, StopsAt, Tells, one_if_more};
ghost use Rattle.grist_run.specs.Denials.{ends_in_denial};
ghost use Rattle.grist_run.specs.Generated.{Generates, IsGenerated, summary_of};
ghost use Rattle.grist_run.specs.Replay.{KeepsRecords};
ghost use Rattle.grist_run.specs.Staying.{StaysStarted};
ghost use Rattle.grist_run.specs.Words.{is_early, place_of};

use crate::denials::tells_denial;
use crate::generated_line::{SUMMARY_BYTES, Summary, append_summary};
use crate::line_room::send;
use crate::running::{start_status, without_history};
use crate::status::{Outcome, Status};
use bundle_core::{Answer, Core, Finished, StartFault};
use cell_types::Name;
use doc_keeper::Keeper;
use doc_model::Entry;
use grist_json::Line;
use io_edges::{Outbox, Sink};
use run_generator::{Generator, first_session, generated_users, second_session};
use std::alloc::{AllocError, Global};
use std::thread::Threads;

/// What is counted of the entries so far: denied bundles, and stream lines that were made.
#[derive(Clone, Copy)]
pub(crate) struct Counts {
    pub denied: u64,
    pub lines: u64,
}

/// The two sessions of a script.
#[derive(Drop)]
struct Sessions {
    first: Name,
    second: Name,
}

/// How many lines were made so far for each of the two, where it is open.
#[derive(Clone, Copy)]
struct Made {
    first: Option<u64>,
    second: Option<u64>,
}

/// The room for the line that sums up the run.
#[derive(Drop)]
struct LineRoom {
    outbox: Outbox,
    line: Vec<u8>,
}

fn name_sessions(alloc: Global) -> Result<Sessions, AllocError>
    ensures { IfOk result (λ s. (s.first ≡ first_session) × (s.second ≡ second_session)) }
{
    Ok(Sessions {
        first: first_session(alloc)?,
        second: second_session(alloc)?,
    })
}

fn made_so_far<K: Keeper>(core: &Core<K>, sessions: &Sessions) -> Made
    ensures first { result.first ≡ lines_made core.now.state sessions.now.first }
    ensures second { result.second ≡ lines_made core.now.state sessions.now.second }
{
    Made {
        first: core.lines_made(&sessions.first),
        second: core.lines_made(&sessions.second),
    }
}

fn one_if_more(before: Option<u64>, after: Option<u64>) -> u64
    ensures count { result ≡ one_if_more before after }
    ensures few { result ≤ 1 }
{
    match (before, after) {
        (Some(before), Some(after)) if before < after => 1,
        _ => 0,
    }
}

// How many lines more were made for both.
fn more_made(before: Made, after: Made) -> u64
    ensures { result ≡ one_if_more before.first after.first
        + one_if_more before.second after.second }
{
    one_if_more(before.first, after.first) + one_if_more(before.second, after.second)
}

fn one_if(told: bool) -> u64
    ensures { result ≡ (if told then 1 else 0) }
{
    if told { 1 } else { 0 }
}

// Whether the last of the lines is the reply to a denied bundle.
fn ends_in_denial(lines: &[Line]) -> bool
    ensures { result ≡ ends_in_denial lines.now }
{
    match lines.last() {
        Some(line) => tells_denial(line.as_str()),
        None => false,
    }
}

// Asks for what an entry asks for, and counts what came of it.
fn ask<K: Keeper>(
    core: &mut Core<K>,
    sessions: &Sessions,
    counts: &mut Counts,
    entry: Entry,
) -> Result<(), Status>
    requires first { sessions.now.first ≡ first_session }
    requires second { sessions.now.second ≡ second_session }
    requires counted { AreCounted counts.old core.old.state }
    requires well_formed { asks_well_formed entry.request ≡ true }
    requires kept { entry.kept ≡ true }
    requires stays { entry.request ≡ Gone → ⊥ }
    ensures stays { StaysStarted core.old core.new }
    ensures counted { OnOk result (AreCounted counts.new core.new.state) }
    ensures took { OnOk result (admitted (all_asked core.old.state.history) (entry ∷ [])
        ≡ takes_all (all_asked core.new.state.history)) }
    ensures err { IfErr result (λ s.
        StopsAt s core.old.state.history core.new.state.history entry) }
{
    let Entry {
        session,
        request,
        size,
        kept: _,
    } = entry;
    let before = made_so_far(core, sessions);
    match core.step(&session, request, size) {
        Ok(Answer::Lines(lines)) => {
            let after = made_so_far(core, sessions);
            let denied = ends_in_denial(lines.as_slice());
            counts.denied = counts.denied.saturating_add(one_if(denied));
            counts.lines = counts.lines.saturating_add(more_made(before, after));
            Ok(())
        }
        Ok(Answer::Full) => Err(Status::HistoryFull),
        Err(_) => Err(Status::NoMemory),
    }
}

// Asks for all entries of a script, and counts what came of them.
fn ask_all<K: Keeper>(alloc: Global, core: &mut Core<K>, rows: u32) -> Result<Counts, Status>
    requires rows { (0 < rows) × (rows ≤ row_bound) }
    requires first { core.old.state.history ≡ [] }
    ensures stays { StaysStarted core.old core.new }
    ensures counted { IfOk result (λ c. AreCounted c core.new.state) }
    ensures took { OnOk result
        (admitted [] (script rows) ≡ takes_all (all_asked core.new.state.history)) }
    ensures err { IfErr result (λ s. StopsAsking rows s core.new.state.history) }
{
    let Ok(sessions) = name_sessions(alloc) else {
        return Err(Status::NoMemory);
    };
    let mut generator = Generator::new(rows);
    let mut counts = Counts {
        denied: 0,
        lines: 0,
    };
    loop {
        match generator.next(alloc) {
            Ok(Some(entry)) => {
                if let Err(status) = ask(core, &sessions, &mut counts, entry) {
                    return Err(status);
                }
            }
            Ok(None) => return Ok(counts),
            Err(_) => return Err(Status::NoMemory),
        }
    }
}

// Writes the line that sums up a run.
fn tell<O: Sink, K: Keeper>(
    core: &Core<K>,
    rows: u32,
    counts: Counts,
    room: LineRoom,
    out: &mut O,
) -> Status
    requires counted { AreCounted counts core.now.state }
    requires empty { (room.outbox ≡ []) × (room.line.items ≡ []) }
    requires room { 320 ≤ vec_capacity room.line }
    ensures tells { Tells result
        (summary_of core.now.state.users core.now.state.start rows core.now.state.history)
        (O.written out.old) (O.written out.new) }
    ensures cause { result ≡ Status.WriteFault → Rose (O.faults out.old) (O.faults out.new) }
{
    let LineRoom {
        mut outbox,
        mut line,
    } = room;
    let summary = Summary {
        accepted: core.bundles(),
        denied: counts.denied,
        entries: core.history().len() as u64,
        lines: counts.lines,
        rows,
    };
    append_summary(&mut line, summary);
    match send(&mut outbox, out, line.as_slice()) {
        Ok(()) => Status::Done,
        Err(_) => Status::WriteFault,
    }
}

// Asks for the entries of the script, and sums up.
fn generate_from<O: Sink, K: Keeper>(
    alloc: Global,
    core: Core<K>,
    rows: u32,
    room: LineRoom,
    out: &mut O,
) -> Outcome<K>
    requires rows { (0 < rows) × (rows ≤ row_bound) }
    requires first { core.state.history ≡ [] }
    requires empty { (room.outbox ≡ []) × (room.line.items ≡ []) }
    requires room { 320 ≤ vec_capacity room.line }
    ensures late { is_early result.status ≡ false }
    ensures at { result.at ≡ place_of result.status }
    ensures generates { Generates core.state.users core.state.start rows result.history
        (O.written out.old) (O.written out.new) result.status }
    ensures keeper { KeepsRecords core.state.users core.state.start result.status result.history
        core.kept.opening (K.records result.keeper) core.kept.before (K.failures result.keeper) }
    ensures write_fault { result.status ≡ Status.WriteFault
        → Rose (O.faults out.old) (O.faults out.new) }
{
    let mut core = core;
    let status = match ask_all(alloc, &mut core, rows) {
        Ok(counts) => tell(&core, rows, counts, room, out),
        Err(status) => status,
    };
    let Finished { history, keeper } = core.finish();
    Outcome {
        status,
        at: status.place(),
        history,
        keeper,
    }
}

/// A generated run: asks for the entries of the script of so many rows, over the document that the
/// keeper's records lead to, and sums up what came of them in one line.
///
/// Its users are those of the script. It reads nothing, gives no lines to anybody, and waits for
/// nobody. Errors: the status says which event came first. Nothing but that line is written.
/// Source: docs/PROTOCOL.md, "the program".
pub fn generate<R: Threads + Sync, O: Sink, K: Keeper>(
    rt: &R,
    alloc: Global,
    rows: u32,
    out: &mut O,
    keeper: K,
) -> Outcome<K>
    requires rows { (0 < rows) × (rows ≤ row_bound) }
    ensures at { result.at ≡ place_of result.status }
    ensures generated { IsGenerated rows result.status result.history
        (O.written out.old) (O.written out.new) (K.records keeper) (K.records result.keeper)
        (K.failures keeper) (K.failures result.keeper) }
    ensures bad_store { (n : ℕ) → result.status ≡ Status.BadStore n
        → FirstBad (K.records keeper) new_document n }
    ensures write_fault { result.status ≡ Status.WriteFault
        → Rose (O.faults out.old) (O.faults out.new) }
    ensures store_fault { result.status ≡ Status.StoreFault
        → Rose (K.failures keeper) (K.failures result.keeper) }
{
    let Ok(outbox) = Outbox::new(alloc) else {
        return without_history(alloc, Status::NoMemory, keeper);
    };
    let Ok(line) = Vec::with_capacity(alloc, SUMMARY_BYTES) else {
        return without_history(alloc, Status::NoMemory, keeper);
    };
    let Ok(users) = generated_users(alloc) else {
        return without_history(alloc, Status::NoMemory, keeper);
    };
    match Core::start(rt, alloc, users, keeper) {
        Ok(core) => generate_from(alloc, core, rows, LineRoom { outbox, line }, out),
        Err(StartFault { cause, keeper }) => without_history(alloc, start_status(cause), keeper),
    }
}
