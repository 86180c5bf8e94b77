//! The records of a keeper, taken into a document one after the other.
ghost use Rattle.std.specs.Prelude.{◌≡◌, ◌≤◌, Err, IfOk, ℕ};
ghost use Rattle.io_edges.specs.Causes.{Rose};
ghost use Rattle.doc_model.specs.DocumentLaws.{IsWhole};
ghost use Rattle.doc_opening.specs.Opening.{FirstBad, Opens};
ghost use Rattle.doc_opening.specs.Loading.{IsBad, Takes};
ghost use Rattle.doc_opening.specs.declared.opening.StartCause.TheVariants.{BadStore, StoreFault};

use crate::taking::take_record;
use doc_keeper::{KeepFault, Keeper};
use doc_model::DocTables;
use std::alloc::Global;

/// Why a document could not be opened.
#[derive(Clone, Copy, Debug, PartialEq, Eq)]
pub enum StartCause {
    /// The keeper failed.
    StoreFault,
    /// The record of that number, from 0, is the first one that is bad at its place.
    BadStore { number: u64 },
    NoMemory,
}

// Takes the record of that number, and answers whether there is one.
fn take_next<K: Keeper, D: DocTables>(
    alloc: Global,
    keeper: &mut K,
    tables: &mut D,
    number: u32,
) -> Result<bool, StartCause>
    requires whole { IsWhole (D.document tables.old) }
    ensures same { K.records keeper.new ≡ K.records keeper.old }
    ensures later { K.failures keeper.old ≤ K.failures keeper.new }
    ensures fault { result ≡ Err StoreFault → Rose (K.failures keeper.old) (K.failures keeper.new) }
    ensures ok { IfOk result (λ more. Takes (K.records keeper.old)
        (D.document tables.old) (D.document tables.new) number more) }
    ensures bad { (n : ℕ) → result ≡ Err (BadStore n)
        → (n ≡ number) × IsBad (K.records keeper.old) (D.document tables.old) number }
    ensures whole { IsWhole (D.document tables.new) }
{
    match keeper.load(number as u64) {
        Ok(Some(bytes)) => match take_record(alloc, tables, number, &bytes) {
            Ok(true) => Ok(true),
            Ok(false) => Err(StartCause::BadStore {
                number: number as u64,
            }),
            Err(_) => Err(StartCause::NoMemory),
        },
        Ok(None) => Ok(false),
        Err(KeepFault::Failed) => Err(StartCause::StoreFault),
        Err(KeepFault::NoMemory) => Err(StartCause::NoMemory),
    }
}

/// Takes all records of a keeper into a document, from number 0 on, and answers how many they are.
///
/// Errors: `StoreFault`, where the keeper's count of faults rose; `BadStore`; out of memory. Some
/// records are then taken.
/// Cost: each record is loaded once.
pub fn open_records<K: Keeper, D: DocTables>(
    alloc: Global,
    keeper: &mut K,
    tables: &mut D,
) -> Result<u32, StartCause>
    requires whole { IsWhole (D.document tables.old) }
    ensures same { K.records keeper.new ≡ K.records keeper.old }
    ensures later { K.failures keeper.old ≤ K.failures keeper.new }
    ensures fault { result ≡ Err StoreFault → Rose (K.failures keeper.old) (K.failures keeper.new) }
    ensures ok { IfOk result (λ n. Opens (K.records keeper.old)
        (D.document tables.old) (D.document tables.new) n) }
    ensures bad { (n : ℕ) → result ≡ Err (BadStore n)
        → FirstBad (K.records keeper.old) (D.document tables.old) n }
    ensures whole { IsWhole (D.document tables.new) }
{
    for number in 0..u32::MAX {
        match take_next(alloc, keeper, tables, number) {
            Ok(true) => {}
            Ok(false) => return Ok(number),
            Err(cause) => return Err(cause),
        }
    }
    // No record with the last number is good, so there is none behind them.
    match take_next(alloc, keeper, tables, u32::MAX) {
        Ok(false) => Ok(u32::MAX),
        Ok(true) => Err(StartCause::NoMemory),
        Err(cause) => Err(cause),
    }
}
