//! A step, and what the watchers are told of it.

ghost use Rattle.std.specs.Prelude.{◌≡◌, ◌<◌, ◌+◌, true, false, length, option_map, IfOk, OnErr, IsOk, if◌then◌else◌};
ghost use Rattle.doc_model.specs.declared.entry.Entry.{Entry};
ghost use Rattle.doc_model.specs.WellFormed.{asks_well_formed};
ghost use Rattle.bundle_core.specs.Core.{CoreState, IsStep, is_gone};
ghost use Rattle.bundle_core.specs.KeptCore.{IsUnchanged, state_now};
ghost use Rattle.bundle_core.specs.MadeLines.{made_line};
ghost use Rattle.bundle_core.specs.Steps.{IsAnswer};
ghost use Rattle.watch_box.specs.Watching.{Tells};
ghost use Rattle.watched_core.specs.Telling.{DropsAt, StaysAt, counts_of};
ghost use Rattle.watched_core.specs.Watched.{IsTold};

use bundle_core::{Answer, Core, is_gone};
use cell_types::Name;
use doc_keeper::Keeper;
use doc_model::Request;
use grist_json::Line;
use std::alloc::{AllocError, Global};
use watch_box::{WatchList, Watcher};

// How many lines were made for the session of each watcher.
fn counts_of<K: Keeper, W: Watcher>(
    alloc: Global,
    core: &Core<K>,
    watchers: &WatchList<W>,
) -> Result<Vec<Option<u64>>, AllocError>
    ensures { IfOk result (λ v. v.items ≡ counts_of core.now.state watchers.now) }
{
    let mut counts = Vec::new(alloc);
    for place in 0..watchers.len() {
        let made = core.lines_made(watchers.session_at(place));
        counts.push(made)?;
    }
    Ok(counts)
}

// Gives the watcher at that place the line that the last entry made for its session, and says
// whether it stays.
fn hears<K: Keeper, W: Watcher>(
    core: &Core<K>,
    before: Option<u64>,
    given: &[Line],
    watchers: &mut WatchList<W>,
    place: usize,
) -> bool
    requires { place < length watchers.old }
    ensures count { length watchers.old ≡ length watchers.new + (if result then 0 else 1) }
    ensures stays { result ≡ true
        → StaysAt core.now.state given.now before place watchers.old watchers.new }
    ensures dropped { result ≡ false
        → DropsAt core.now.state given.now before place watchers.old watchers.new }
{
    match core.line_made(watchers.session_at(place), before, given) {
        Some(line) => watchers.tell_at(place, line.as_str().as_bytes()),
        None => true,
    }
}

// Gives each watcher the line that the last entry made for its session.
fn tell_each<K: Keeper, W: Watcher>(
    core: &Core<K>,
    counts: &[Option<u64>],
    given: &[Line],
    watchers: &mut WatchList<W>,
)
    requires { length counts.now ≡ length watchers.old }
    ensures { (old : CoreState) (e : Entry) → IsStep old core.now.state e given.now
        → counts.now ≡ counts_of old watchers.old
        → Tells (made_line old.users (state_now old) e) watchers.old watchers.new }
{
    let mut place = 0;
    for index in 0..counts.len() {
        if hears(core, counts[index], given, watchers, place) {
            place += 1;
        }
    }
}

/// A step of a core, of which watchers are told.
///
/// Memory: that of the core, and before it what is noted of each watcher. The end of a connection
/// takes none.
pub(crate) fn step_and_tell<K: Keeper, W: Watcher>(
    alloc: Global,
    core: &mut Core<K>,
    watchers: &mut WatchList<W>,
    session: &Name,
    request: Request,
    size: u32,
) -> Result<Answer, AllocError>
    requires well_formed { asks_well_formed request ≡ true }
    ensures ok { IfOk result (λ a. IsAnswer core.old core.new session.now request size a) }
    ensures told { IfOk result (λ a.
        IsTold core.old core.new session.now request size watchers.old watchers.new a) }
    ensures err { OnErr result (IsUnchanged core.old core.new) }
    ensures untold { OnErr result (watchers.new ≡ watchers.old) }
    ensures gone { is_gone request ≡ true → IsOk result }
{
    // No line is made of it.
    if is_gone(&request) {
        return core.step(session, request, size);
    }
    let counts = match counts_of(alloc, core, watchers) {
        Ok(counts) => counts,
        Err(fault) => {
            drop(request);
            return Err(fault);
        }
    };
    let answer = core.step(session, request, size)?;
    if let Answer::Lines(lines) = &answer {
        tell_each(core, counts.as_slice(), lines.as_slice(), watchers);
    }
    Ok(answer)
}
