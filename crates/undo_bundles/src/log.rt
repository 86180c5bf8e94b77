//! Bundles by their numbers.

ghost use Rattle.std.specs.Prelude.{◌≡◌, ◌<◌, ◌≤◌, ◌^◌, IfOk, IfErr, IsOk, OnOk, OnErr, Ok, Err};
ghost use Rattle.std.specs.Option.{option_copied};
ghost use Rattle.undo_bundles.specs.BundleLog.{IsLog, count, empty_log, kept_at, marked, noted, undo_of};

use doc_model::StepList;
use std::alloc::{AllocError, Global};
use std::marker::Model;

/// So many bundles are kept at most.
pub const MAX_KEPT: usize = 100;

/// An accepted bundle: the steps that take it back, none where that was done.
#[derive(Drop)]
pub struct NotedBundle {
    pub inverse: StepList,
    pub undone: bool,
}

/// Why a bundle cannot be undone.
#[derive(Drop)]
pub enum LogFault {
    /// The number is none of the kept bundles'.
    NoSuchBundle,
    /// It was undone before. The bundle that undid it is another one, and can be undone.
    AlreadyUndone,
}

/// The accepted bundles of a session, numbered from 1, of which the last 100 are kept.
///
/// A bundle is noted in two steps, so that running out of memory changes nothing: `reserve` makes
/// the room before the bundle is done, and `note`, which cannot fail, notes it after.
#[derive(Drop)]
pub struct BundleLog {
    alloc: Global,
    dropped: u64,
    kept: Vec<NotedBundle>,
}

impl Model for BundleLog {
    ghost use Rattle.std.specs.Prelude.{◌-◌, vec_capacity, vec_len};
    ghost use Rattle.undo_bundles.specs.BundleLog.{IsLog, LogState};

    ghost Value = { LogState };

    ghost view = { λ b. record {
      log = record { dropped = b.dropped; kept = b.kept.items };
      room = vec_capacity b.kept - vec_len b.kept;
    } };

    ghost invariant = { λ b. IsLog (record { dropped = b.dropped; kept = b.kept.items }) };
}

impl BundleLog {
    /// The log of no bundles.
    ///
    /// Memory: none.
    pub fn new(alloc: Global) -> Self
        ensures { result.log ≡ empty_log }
    {
        BundleLog {
            alloc,
            dropped: 0,
            kept: Vec::new(alloc),
        }
    }

    /// At most 100 bundles are kept, and fewer only where none was dropped.
    pub fn log_law(&self)
        ensures { IsLog self.now.log }
    {
        let _ = &self.dropped;
    }

    /// How many bundles were noted, which is the number of the last one.
    ///
    /// Memory: none.
    pub fn count(&self) -> u64
        requires { count self.now.log < 2 ^ 63 }
        ensures { result ≡ count self.now.log }
    {
        self.dropped + self.kept.len() as u64
    }

    /// Makes the room for one note, which stays until that note.
    ///
    /// Errors: out of memory. The bundles stay as they are, whatever the answer.
    pub fn reserve(&mut self) -> Result<(), AllocError>
        ensures log { self.new.log ≡ self.old.log }
        ensures ok { OnOk result (0 < self.new.room) }
        ensures err { OnErr result (self.new ≡ self.old) }
    {
        self.kept.reserve(1)
    }

    /// Notes the next bundle and gives its number. Where 100 are kept, the oldest one is dropped.
    ///
    /// Memory: none. Cost: the bundles that are kept, and the steps of the one that is dropped.
    pub fn note(&mut self, inverse: StepList) -> u64
        requires room { 0 < self.old.room }
        requires few { count self.old.log < 2 ^ 63 }
        ensures log { self.new.log ≡ noted inverse self.old.log }
        ensures number { result ≡ count self.new.log }
    {
        if self.kept.len() >= MAX_KEPT {
            drop(self.kept.remove(0));
            self.dropped += 1;
        }
        self.kept.push_reserved(NotedBundle {
            inverse,
            undone: false,
        });
        self.dropped + self.kept.len() as u64
    }

    // The bundle of that number, where it is kept.
    fn kept_at(&self, number: u64) -> Option<&NotedBundle>
        ensures { option_copied result ≡ kept_at self.now.log number }
    {
        if number <= self.dropped {
            return None;
        }
        self.kept.get((number - self.dropped - 1) as usize)
    }

    /// The steps that take back the bundle of that number.
    ///
    /// Errors: `NoSuchBundle` and `AlreadyUndone`. Memory: none.
    pub fn undo_of(&self, number: u64) -> Result<&StepList, LogFault>
        ensures ok { IfOk result (λ inverse. undo_of self.now.log number ≡ Ok inverse.now) }
        ensures err { IfErr result (λ fault. undo_of self.now.log number ≡ Err fault) }
    {
        let Some(bundle) = self.kept_at(number) else {
            return Err(LogFault::NoSuchBundle);
        };
        if bundle.undone {
            return Err(LogFault::AlreadyUndone);
        }
        Ok(&bundle.inverse)
    }

    /// Marks the bundle of that number as undone. It stays so, and its steps are dropped.
    ///
    /// Memory: none.
    pub fn mark_undone(&mut self, number: u64)
        requires { IsOk (undo_of self.old.log number) }
        ensures log { self.new.log ≡ marked number self.old.log }
        ensures room { self.new.room ≡ self.old.room }
    {
        let index = (number - self.dropped - 1) as usize;
        self.kept[index] = NotedBundle {
            inverse: StepList::new(self.alloc),
            undone: true,
        };
    }
}
