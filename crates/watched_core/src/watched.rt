//! A core with its watchers.

ghost use Rattle.std.specs.Prelude.{◌≡◌, ◌<◌, ◌≤◌, ◌+◌, ◌-◌, ◌^◌, ◌++◌, true, [], ◌∷◌, length, option_map, IfErr, IfOk, IsOk, OnErr, OnOk};
ghost use Rattle.std.specs.List.{find};
ghost use Rattle.doc_model.specs.WellFormed.{asks_well_formed};
ghost use Rattle.bundle_core.specs.Core.{history_bound, is_gone, is_open_in};
ghost use Rattle.bundle_core.specs.KeptCore.{IsKeeping, IsUnchanged};
ghost use Rattle.bundle_core.specs.State.{opening, records_kept};
ghost use Rattle.bundle_core.specs.Steps.{IsAnswer};
ghost use Rattle.watch_box.specs.Watching.{WatcherState, has_number, without};
ghost use Rattle.watched_core.specs.Watched.{IsTold};

use crate::telling::step_and_tell;
use bundle_core::{Answer, Core, Finished};
use cell_types::Name;
use doc_keeper::Keeper;
use doc_model::{Entry, Request};
use std::alloc::{AllocError, Global};
use std::marker::Model;
use watch_box::{Unattached, WatchList, Watcher};

/// A core with watchers of its sessions' stream lines. It is seen as the core, as what each watcher
/// tells, and as how many were attached to it so far.
#[derive(Drop)]
pub struct WatchedCore<K: Keeper, W: Watcher> {
    alloc: Global,
    core: Core<K>,
    watchers: WatchList<W>,
    attached: u32,
}

impl<K: Keeper, W: Watcher> Model for WatchedCore<K, W> {
    ghost use Rattle.watched_core.specs.Watched.{WatchedState};

    ghost Value = { WatchedState };

    ghost view = { λ c. record {
      core = c.core;
      watching = c.watchers;
      attached = c.attached;
    } };
}

impl<K: Keeper, W: Watcher> WatchedCore<K, W> {
    /// A core without watchers.
    ///
    /// Memory: none.
    pub fn new(alloc: Global, core: Core<K>) -> Self
        ensures core { result.core ≡ core }
        ensures watching { result.watching ≡ [] }
        ensures attached { result.attached ≡ 0 }
    {
        WatchedCore {
            alloc,
            core,
            watchers: WatchList::new(alloc),
            attached: 0,
        }
    }

    /// Attaches a watcher of that session's stream lines, and answers its number: how many were
    /// attached before.
    ///
    /// Errors: `Unattached`, for want of memory; nothing has changed, and the watcher comes back.
    pub fn attach(&mut self, session: Name, watcher: W) -> Result<u32, Unattached<W>>
        requires { self.old.attached < 2 ^ 32 - 1 }
        ensures ok { IfOk result (λ number. number ≡ self.old.attached) }
        ensures added { OnOk result (self.new.watching ≡ self.old.watching ++ record {
          number = self.old.attached;
          session = session;
          telling = record {
            taken = W.taken watcher;
            refused_from = W.refused_from watcher;
            faults = W.faults watcher;
          };
        } ∷ []) }
        ensures counted { OnOk result (self.new.attached ≡ self.old.attached + 1) }
        ensures core { self.new.core ≡ self.old.core }
        ensures err { OnErr result (self.new ≡ self.old) }
        ensures back { IfErr result (λ u. u.watcher ≡ watcher) }
    {
        let number = self.attached;
        self.watchers.push(number, session, watcher)?;
        self.attached = number + 1;
        Ok(number)
    }

    /// How many watchers were attached so far.
    pub fn attached(&self) -> u32
        ensures { result ≡ self.now.attached }
    {
        self.attached
    }

    /// Takes the watcher of that number out, as it is; `None` where there is none of it any more.
    ///
    /// Memory: none.
    pub fn detach(&mut self, number: u32) -> Option<W>
        ensures found { option_map (λ b. record {
          taken = W.taken b;
          refused_from = W.refused_from b;
          faults = W.faults b;
        }) result ≡ option_map (λ (w : WatcherState). w.telling)
            (find (has_number number) self.old.watching) }
        ensures rest { self.new.watching ≡ without number self.old.watching }
        ensures core { self.new.core ≡ self.old.core }
        ensures attached { self.new.attached ≡ self.old.attached }
    {
        self.watchers.take_out(number)
    }

    /// Takes one request of a session as its core does. Each watcher takes the stream line that
    /// the step makes for its session; one that fails is dropped, and nothing else changes by it.
    ///
    /// Units: the size is the byte count of the request's line.
    /// Errors: `Full` where the history has no room for the request; it changes nothing.
    /// Memory: all of it is taken before the keeper is called. Where there is none, nothing
    /// changes, the keeper's count of faults neither. A session that goes away takes none.
    pub fn step(
        &mut self,
        session: &Name,
        request: Request,
        size: u32,
    ) -> Result<Answer, AllocError>
        requires well_formed { asks_well_formed request ≡ true }
        ensures ok { IfOk result (λ a.
            IsAnswer self.old.core self.new.core session.now request size a) }
        ensures told { IfOk result (λ a. IsTold self.old.core self.new.core session.now request
            size self.old.watching self.new.watching a) }
        ensures err { OnErr result (IsUnchanged self.old.core self.new.core) }
        ensures untold { OnErr result (self.new.watching ≡ self.old.watching) }
        ensures attached { self.new.attached ≡ self.old.attached }
        ensures gone { is_gone request ≡ true → IsOk result }
    {
        step_and_tell(
            self.alloc,
            &mut self.core,
            &mut self.watchers,
            session,
            request,
            size,
        )
    }

    /// The core.
    pub fn core(&self) -> &Core<K>
        ensures { result.now ≡ self.now.core }
    {
        &self.core
    }

    /// The entries so far.
    pub fn history(&self) -> &[Entry]
        ensures entries { result.now ≡ self.now.core.state.history }
        ensures bounded { length result.now ≤ history_bound }
        ensures keeping { IsKeeping self.now.core }
    {
        self.core.history()
    }

    /// How many bundles of the history were accepted.
    ///
    /// Memory: none.
    pub fn bundles(&self) -> u64
        ensures { result ≡ records_kept self.now.core.state.users
            (opening self.now.core.state.start) self.now.core.state.history }
    {
        self.core.bundles()
    }

    /// Whether the session is open.
    ///
    /// Memory: none. Cost: linear in the open sessions before it.
    pub fn has_open(&self, session: &Name) -> bool
        ensures { result ≡ is_open_in self.now.core.state session.now }
    {
        self.core.has_open(session)
    }

    /// Ends the core, and gives its history, and its keeper as it is. The watchers are dropped.
    ///
    /// Memory: none.
    pub fn finish(self) -> Finished<K>
        ensures history { result.history ≡ self.core.state.history }
        ensures records { K.records result.keeper ≡ self.core.kept.records }
        ensures faults { K.failures result.keeper ≡ self.core.kept.faults }
        ensures keeping { IsKeeping self.core }
    {
        self.core.finish()
    }
}
