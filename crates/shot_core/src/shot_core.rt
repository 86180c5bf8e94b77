//! A core with its watchers, and the writer of shots of its document, as a machine that threads
//! step in turn.

ghost use Rattle.std.specs.Prelude.{◌≡◌, ◌<◌, ◌∷◌, ◌++◌, [], List, false, length, IfErr, IfOk, IfSome};
ghost use Rattle.doc_model.specs.declared.entry.Entry.{Entry};
ghost use Rattle.document_shot.specs.Pasts.{past_before, past_of};

use crate::machine::ShotOut;
use bundle_core::{CoreOpening, Event};
use doc_keeper::Keeper;
use doc_model::Entry;
use document_shot::{PeekReader, PeekWriter, last_operation};
use session_gate::Machine;
use snap_reads::Mark;
use std::alloc::{AllocError, Global};
use std::marker::Model;
use std::sync::Wait;
use std::thread::Threads;
use watch_box::Watcher;
use watched_core::WatchedCore;

/// A core with its watchers, which publishes a shot of its document at each entry. It is not
/// `Drop`: `finish` ends it. It is seen as the core with its watchers, and as the writer of shots.
pub struct ShotCore<K: Keeper, W: Watcher> {
    alloc: Global,
    watched: WatchedCore<K, W>,
    writer: PeekWriter,
    // The mark of the last entry, where its shot was published.
    mark: Option<Mark>,
}

impl<K: Keeper, W: Watcher> Model for ShotCore<K, W> {
    ghost use Rattle.std.specs.Prelude.{◌≡◌, false, length, IfSome};
    ghost use Rattle.document_shot.specs.Pasts.{past_of};
    ghost use Rattle.shot_core.specs.Machine.{ShotCoreState};

    ghost Value = { ShotCoreState };

    ghost view = { λ c. record { watched = c.watched; writer = c.writer } };

    ghost invariant = { λ c.
        (c.writer.lost ≡ false → c.writer.last ≡ past_of c.watched.core.state)
        × IfSome c.mark (λ m. (m.entries ≡ length c.watched.core.state.history)
        × (c.writer.published ≡ past_of c.watched.core.state)) };
}

// Publishes a shot of what the last entry led to.
fn publish<R: Wait, K: Keeper, W: Watcher>(
    rt: &R,
    alloc: Global,
    watched: &WatchedCore<K, W>,
    writer: &mut PeekWriter,
) -> Option<Mark>
    requires grown { writer.old.lost ≡ false → (before : List Entry) × (e : Entry)
        × (watched.now.core.state.history ≡ before ++ e ∷ [])
        × (writer.old.last ≡ past_before watched.now.core.state before) }
    ensures last { writer.new.lost ≡ false → writer.new.last ≡ past_of watched.now.core.state }
    ensures marked { IfSome result
        (λ mark. (mark.entries ≡ length watched.now.core.state.history)
        × (writer.new.published ≡ past_of watched.now.core.state)) }
{
    match last_operation(alloc, watched.core()) {
        Ok(operation) => writer.publish(rt, operation),
        Err(_) => {
            writer.lose();
            None
        }
    }
}

impl<K: Keeper, W: Watcher> ShotCore<K, W> {
    /// A core that publishes shots for so many readers.
    ///
    /// Errors: out of memory; the core comes back.
    /// Memory: two copies of the document.
    pub fn open<R: Wait>(
        rt: &R,
        alloc: Global,
        watched: WatchedCore<K, W>,
        readers: u32,
    ) -> Result<ShotCore<K, W>, WatchedCore<K, W>>
        requires { 0 < readers }
        ensures ok { IfOk result (λ c. (c.watched ≡ watched)
            × (c.writer.published ≡ past_of watched.core.state)) }
        ensures err { IfErr result (λ c. c ≡ watched) }
    {
        match PeekWriter::open(rt, alloc, watched.core(), readers) {
            Ok(writer) => Ok(ShotCore {
                alloc,
                watched,
                writer,
                mark: None,
            }),
            Err(_) => Err(watched),
        }
    }

    /// A reader of the shots, where there is a place for one.
    ///
    /// Errors: out of memory, or each place is taken.
    pub fn reader(&mut self) -> Result<PeekReader, AllocError>
        ensures told { IfOk result (λ reader.
            (reader.known ≡ self.old.writer.published ∷ []) × (reader.least ≡ 0)) }
        ensures same { self.new ≡ self.old }
    {
        self.writer.reader()
    }

    /// Gives up the writer of shots, and gives the core with its watchers. It waits for readers;
    /// from then on they find no shot.
    pub fn finish<R: Wait>(self, rt: &R) -> WatchedCore<K, W>
        ensures { result ≡ self.watched }
    {
        let ShotCore {
            alloc: _,
            watched,
            writer,
            mark: _,
        } = self;
        writer.give_up(rt);
        watched
    }
}

impl<K: Keeper, W: Watcher> Machine for ShotCore<K, W> {
    type Event = Event;

    type Entry = Entry;

    type Out = ShotOut;

    type Opening = CoreOpening;

    ghost use Rattle.std.specs.Prelude.{◌≡◌, true};
    ghost use Rattle.doc_model.specs.WellFormed.{asks_well_formed};
    ghost use Rattle.bundle_core.specs.Core.{is_gone};
    ghost use Rattle.bundle_core.specs.Machine.{opening_of};
    ghost use Rattle.shot_core.specs.Machine.{IsShotGiven};

    ghost opening = { λ c. opening_of c.watched.core };

    ghost history = { λ c. c.watched.core.state.history };

    ghost takes = { λ event. asks_well_formed event.request ≡ true };

    ghost is_sure = { λ _ _ event. is_gone event.request ≡ true };

    ghost answers = { λ opening before after event out.
        IsShotGiven opening before after event out };

    fn step<R: Threads + Wait + Sync>(
        &mut self,
        rt: &R,
        event: Event,
    ) -> Result<ShotOut, AllocError> {
        let before = Machine::entries(&self.watched);
        let given = Machine::step(&mut self.watched, rt, event)?;
        if Machine::entries(&self.watched) > before {
            self.mark = publish(rt, self.alloc, &self.watched, &mut self.writer);
        }
        Ok(ShotOut {
            given,
            mark: self.mark,
        })
    }

    fn entries(&self) -> u64 {
        Machine::entries(&self.watched)
    }
}
