//! Keepers in memory: one that fails at listed calls, and one that never fails.
ghost use Rattle.std.specs.Prelude.{◌≡◌, [], ◌∷◌, ◌++◌, ◌≢◌, IfOk, OnOk, OnErr, Err, slice_get, option_map};

use crate::{KeepFault, Keeper};
use std::alloc::{AllocError, Global};
use std::marker::Model;

/// A record. It is seen as its bytes.
#[derive(Drop)]
struct Record {
    bytes: Vec<u8>,
}

impl Model for Record {
    ghost use Rattle.std.specs.Prelude.{List, ℕ};

    ghost Value = { List ℕ };

    ghost view = { λ r. r.bytes.items };
}

fn record_of(alloc: Global, bytes: &[u8]) -> Result<Record, AllocError>
    ensures { IfOk result (λ r. r ≡ bytes.now) }
{
    Ok(Record {
        bytes: bytes.to_vec(alloc)?,
    })
}

// A copy of that record, if there is one.
fn copy_at(alloc: Global, records: &[Record], number: u64) -> Result<Option<Vec<u8>>, KeepFault>
    ensures told { IfOk result (λ o. option_map (λ v. v.items) o ≡ slice_get records.now number) }
    ensures whole { result ≢ Err KeepFault.Failed }
{
    let Ok(place) = usize::try_from(number) else {
        return Ok(None);
    };
    let Some(record) = records.get(place) else {
        return Ok(None);
    };
    match record.bytes.to_vec(alloc) {
        Ok(bytes) => Ok(Some(bytes)),
        Err(_) => Err(KeepFault::NoMemory),
    }
}

// A copy of the bytes behind the other records.
fn add(alloc: Global, records: &mut Vec<Record>, bytes: &[u8]) -> Result<(), KeepFault>
    ensures ok { OnOk result (records.new.items ≡ records.old.items ++ bytes.now ∷ []) }
    ensures err { OnErr result (records.new.items ≡ records.old.items) }
    ensures whole { result ≢ Err KeepFault.Failed }
{
    let Ok(record) = record_of(alloc, bytes) else {
        return Err(KeepFault::NoMemory);
    };
    match records.push(record) {
        Ok(()) => Ok(()),
        Err(_) => Err(KeepFault::NoMemory),
    }
}

/// A keeper in memory that fails at the listed calls.
#[derive(Drop)]
pub struct MemKeeper {
    alloc: Global,
    records: Vec<Record>,
    failing: Vec<u64>,
    calls: u64,
    faults: u64,
}

impl MemKeeper {
    ghost use Rattle.std.specs.Prelude.{◌≡◌, ◌↔◌, ◌+◌, ◌-◌, ◌^◌, ◌≤◌, min, [], false, IsTrue, Contains};
    ghost use Rattle.io_edges.specs.Causes.{Rose};
    ghost use Rattle.doc_keeper.specs.Memory.{records_of, keep_faults, keep_calls, failing_keeps};

    /// Keeps nothing yet, and fails at the calls whose numbers are listed.
    ///
    /// Units: calls of `ready`, `load` and `keep` are numbered together, from 0.
    /// Memory: none.
    pub fn new(alloc: Global, failing: Vec<u64>) -> Self
        ensures records { records_of result ≡ [] }
        ensures faults { keep_faults result ≡ 0 }
        ensures calls { keep_calls result ≡ 0 }
        ensures failing { failing_keeps result ≡ failing.items }
    {
        MemKeeper {
            alloc,
            records: Vec::new(alloc),
            failing,
            calls: 0,
            faults: 0,
        }
    }

    // Counts a call, and the fault where it is to fail.
    fn is_failing(&mut self) -> bool
        ensures records { records_of self.new ≡ records_of self.old }
        ensures listed { IsTrue result ↔ Contains (failing_keeps self.old) (keep_calls self.old) }
        ensures failing { failing_keeps self.new ≡ failing_keeps self.old }
        ensures calls { keep_calls self.new ≡ min (keep_calls self.old + 1) (2 ^ 64 - 1) }
        ensures later { keep_faults self.old ≤ keep_faults self.new }
        ensures rose { IsTrue result → Rose (keep_faults self.old) (keep_faults self.new) }
        ensures stands { result ≡ false → keep_faults self.new ≡ keep_faults self.old }
    {
        let call = self.calls;
        self.calls = self.calls.saturating_add(1);
        let failing = self.failing.contains(&call);
        if failing {
            self.faults = self.faults.saturating_add(1);
        }
        failing
    }
}

impl Keeper for MemKeeper {
    ghost use Rattle.std.specs.Prelude.{◌≡◌, ◌↔◌, ◌+◌, ◌-◌, ◌^◌, min, Some, Err, Contains};
    ghost use Rattle.doc_keeper.specs.Keeping.{HasCause, Tells, Adds};
    ghost use Rattle.doc_keeper.specs.Memory.{records_of, keep_faults, keep_calls, failing_keeps};
    ghost use Rattle.doc_keeper.specs.declared.keeper.KeepFault.TheVariants.{Failed};

    ghost records = { λ k. Some k.records.items };

    ghost failures = { λ k. k.faults };

    fn ready(&mut self) -> Result<(), KeepFault>
        ensures same { records_of self.new ≡ records_of self.old }
        ensures cause { HasCause (keep_faults self.old) (keep_faults self.new) result }
        ensures listed { (result ≡ Err Failed)
            ↔ Contains (failing_keeps self.old) (keep_calls self.old) }
        ensures failing { failing_keeps self.new ≡ failing_keeps self.old }
        ensures calls { keep_calls self.new ≡ min (keep_calls self.old + 1) (2 ^ 64 - 1) }
    {
        if self.is_failing() {
            return Err(KeepFault::Failed);
        }
        Ok(())
    }

    fn load(&mut self, number: u64) -> Result<Option<Vec<u8>>, KeepFault>
        ensures same { records_of self.new ≡ records_of self.old }
        ensures told { IfOk result (λ o.
            Tells (Some (records_of self.old)) number (option_map (λ v. v.items) o)) }
        ensures cause { HasCause (keep_faults self.old) (keep_faults self.new) result }
        ensures listed { (result ≡ Err Failed)
            ↔ Contains (failing_keeps self.old) (keep_calls self.old) }
        ensures failing { failing_keeps self.new ≡ failing_keeps self.old }
        ensures calls { keep_calls self.new ≡ min (keep_calls self.old + 1) (2 ^ 64 - 1) }
    {
        if self.is_failing() {
            return Err(KeepFault::Failed);
        }
        copy_at(self.alloc, &self.records, number)
    }

    fn keep(&mut self, number: u64, bytes: &[u8]) -> Result<(), KeepFault>
        ensures adds { Adds (Some (records_of self.old)) (Some (records_of self.new))
            bytes.now result }
        ensures cause { HasCause (keep_faults self.old) (keep_faults self.new) result }
        ensures listed { (result ≡ Err Failed)
            ↔ Contains (failing_keeps self.old) (keep_calls self.old) }
        ensures failing { failing_keeps self.new ≡ failing_keeps self.old }
        ensures calls { keep_calls self.new ≡ min (keep_calls self.old + 1) (2 ^ 64 - 1) }
    {
        if self.is_failing() {
            return Err(KeepFault::Failed);
        }
        add(self.alloc, &mut self.records, bytes)
    }

    fn faults(&self) -> u64
        ensures { result ≡ keep_faults self.now }
    {
        self.faults
    }
}

/// A keeper in memory that never fails.
#[derive(Drop)]
pub struct SureKeeper {
    alloc: Global,
    records: Vec<Record>,
}

impl SureKeeper {
    ghost use Rattle.doc_keeper.specs.Memory.{sure_records_of};

    /// Keeps nothing yet.
    ///
    /// Memory: none.
    pub fn new(alloc: Global) -> Self
        ensures { sure_records_of result ≡ [] }
    {
        SureKeeper {
            alloc,
            records: Vec::new(alloc),
        }
    }
}

impl Keeper for SureKeeper {
    ghost use Rattle.std.specs.Prelude.{Some};

    ghost records = { λ k. Some k.records.items };

    ghost failures = { λ _. 0 };

    fn ready(&mut self) -> Result<(), KeepFault> {
        Ok(())
    }

    fn load(&mut self, number: u64) -> Result<Option<Vec<u8>>, KeepFault> {
        copy_at(self.alloc, &self.records, number)
    }

    fn keep(&mut self, number: u64, bytes: &[u8]) -> Result<(), KeepFault> {
        add(self.alloc, &mut self.records, bytes)
    }

    fn faults(&self) -> u64 {
        0
    }
}
