//! A core with its watchers as a machine that threads step in turn.

use crate::watched::WatchedCore;
use bundle_core::{Answer, CoreOpening, Event, Given};
use doc_keeper::Keeper;
use doc_model::Entry;
use session_gate::Machine;
use std::alloc::AllocError;
use std::sync::Wait;
use std::thread::Threads;
use watch_box::Watcher;

impl<K: Keeper, W: Watcher> Machine for WatchedCore<K, W> {
    type Event = Event;

    type Entry = Entry;

    type Out = Given;

    type Opening = CoreOpening;

    ghost use Rattle.std.specs.Prelude.{◌≡◌, true};
    ghost use Rattle.doc_model.specs.WellFormed.{asks_well_formed};
    ghost use Rattle.bundle_core.specs.Core.{is_gone};
    ghost use Rattle.bundle_core.specs.Machine.{IsGiven, opening_of};

    ghost opening = { λ c. opening_of c.core };

    ghost history = { λ c. c.core.state.history };

    ghost takes = { λ event. asks_well_formed event.request ≡ true };

    ghost is_sure = { λ _ _ event. is_gone event.request ≡ true };

    ghost answers = { λ opening before after event out. IsGiven opening before after event out };

    fn step<R: Threads + Wait + Sync>(
        &mut self,
        _rt: &R,
        event: Event,
    ) -> Result<Given, AllocError> {
        let Event {
            session,
            request,
            size,
        } = event;
        let was_open = self.has_open(&session);
        let Answer::Lines(lines) = WatchedCore::step(self, &session, request, size)? else {
            return Ok(Given::Full);
        };
        let is_open = self.has_open(&session);
        Ok(Given::Lines {
            lines,
            closes: was_open && !is_open,
        })
    }

    fn entries(&self) -> u64 {
        self.history().len() as u64
    }
}
