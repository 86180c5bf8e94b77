//! A keeper, with the count of its records.
ghost use Rattle.std.specs.Prelude.{◌≡◌, ◌+◌, IfOk, OnOk, OnErr};
ghost use Rattle.doc_keeper.specs.Keeping.{HasCause, IsNext};
ghost use Rattle.doc_model.specs.declared.action.DocAction.{DocAction};
ghost use Rattle.bundle_records.specs.Ledger.{Ledger, AddsNext, IsNextRecord};

use crate::printable::are_printable;
use doc_keeper::{KeepFault, Keeper};
use doc_model::DocActionList;
use grist_json::Line;
use record_lines::write_record;
use std::alloc::{AllocError, Global};
use std::marker::Model;

/// How many records are kept at most: a record with this number is never read.
const MAX_RECORDS: u64 = 4_294_967_295;

/// A keeper, and how many records it has. It is seen as the records that it tells, the count of its
/// faults and that number.
#[derive(Drop)]
pub struct RecordLedger<K: Keeper> {
    keeper: K,
    count: u64,
}

impl<K: Keeper> Model for RecordLedger<K> {
    ghost use Rattle.doc_keeper.specs.Keeping.{IsNext};
    ghost use Rattle.bundle_records.specs.Ledger.{Ledger};

    ghost Value = { Ledger };

    ghost view = { λ l. record {
      told = K.records l.keeper;
      faults = K.failures l.keeper;
      count = l.count;
    } };

    ghost invariant = { λ l. IsNext (K.records l.keeper) l.count };
}

impl<K: Keeper> RecordLedger<K> {
    /// A keeper that has so many records.
    ///
    /// Memory: none.
    pub fn new(keeper: K, count: u64) -> Self
        requires { IsNext (K.records keeper) count }
        ensures { result ≡ record {
          told = K.records keeper;
          faults = K.failures keeper;
          count = count;
        } }
    {
        RecordLedger { keeper, count }
    }

    /// The next record: that of a bundle of these actions.
    ///
    /// Errors: out of memory; so it is answered, too, where the actions would not read back.
    pub fn record_of(&self, alloc: Global, actions: &DocActionList) -> Result<Line, AllocError>
        ensures { IfOk result (λ line. IsNextRecord self.now.told actions.now line) }
    {
        if self.count >= MAX_RECORDS || !are_printable(actions.as_slice()) {
            return Err(AllocError);
        }
        write_record(alloc, self.count, actions)
    }

    /// Keeps one more record.
    ///
    /// Errors: `Failed`, where the count of faults rose; `NoMemory`, also past the last number. The
    /// told records are then as before.
    pub fn keep(&mut self, record: &Line) -> Result<(), KeepFault>
        ensures ok { OnOk result (AddsNext self.old.told self.new.told record.now) }
        ensures err { OnErr result (self.new.told ≡ self.old.told) }
        ensures counted { OnOk result (self.new.count ≡ self.old.count + 1) }
        ensures uncounted { OnErr result (self.new.count ≡ self.old.count) }
        ensures cause { HasCause self.old.faults self.new.faults result }
    {
        if self.count >= MAX_RECORDS {
            return Err(KeepFault::NoMemory);
        }
        self.keeper.keep(self.count, record.as_str().as_bytes())?;
        self.count += 1;
        Ok(())
    }

    /// How many records the keeper has.
    ///
    /// Memory: none.
    pub fn count(&self) -> u64
        ensures { result ≡ self.now.count }
    {
        self.count
    }

    /// How often the keeper has failed.
    ///
    /// Memory: none.
    pub fn faults(&self) -> u64
        ensures { result ≡ self.now.faults }
    {
        self.keeper.faults()
    }

    /// The keeper.
    ///
    /// Memory: none.
    pub fn into_keeper(self) -> K
        ensures told { K.records result ≡ self.told }
        ensures faults { K.failures result ≡ self.faults }
    {
        self.keeper
    }
}
