//! The document that a core begins with: what the records of its keeper make of the new one.

ghost use Rattle.std.specs.Prelude.{ℕ, ◌≡◌, ◌≤◌, IfErr, IfOk};
ghost use Rattle.io_edges.specs.Causes.{Rose};
ghost use Rattle.doc_model.specs.DocumentLaws.{IsWhole};
ghost use Rattle.doc_model.specs.NewDocument.{new_document};
ghost use Rattle.doc_opening.specs.Opening.{FirstBad, Opens};
ghost use Rattle.doc_opening.specs.declared.opening.StartCause.TheVariants.{BadStore, StoreFault};
ghost use Rattle.bundle_core.specs.Core.{document_of};
ghost use Rattle.bundle_core.specs.Loading.{IsLoaded, IsLoadedAs};

use crate::ruled_document::RuledDocument;
use action_limits::Tally;
use column_store::ColumnTables;
use doc_keeper::{KeepFault, Keeper};
use doc_model::laws::new_document_law;
use doc_opening::{StartCause, open_records};
use evaluated_doc::Doc;
use std::alloc::{AllocError, Global};
use std::thread::Threads;

/// The document that a core began with: a new one, or a copy of what records made of it.
#[derive(Drop)]
pub(crate) enum Opening {
    NewDocument,
    Copied(ColumnTables),
}

/// A document that was made of so many records, evaluated, with its tally and the copy of it.
#[derive(Drop)]
pub(crate) struct Loaded {
    pub opening: Opening,
    pub doc: RuledDocument<ColumnTables>,
    pub tally: Tally,
    pub count: u32,
}

// Makes the keeper ready.
fn make_ready<K: Keeper>(keeper: &mut K) -> Result<(), StartCause>
    ensures same { K.records keeper.new ≡ K.records keeper.old }
    ensures later { K.failures keeper.old ≤ K.failures keeper.new }
    ensures fault { IfErr result (λ cause. cause ≡ StoreFault
        → Rose (K.failures keeper.old) (K.failures keeper.new)) }
    ensures good { IfErr result (λ cause. (n : ℕ) → cause ≡ BadStore n → ⊥) }
{
    match keeper.ready() {
        Ok(()) => Ok(()),
        Err(KeepFault::Failed) => Err(StartCause::StoreFault),
        Err(KeepFault::NoMemory) => Err(StartCause::NoMemory),
    }
}

// What is kept of a document that was made of so many records: nothing of a new one.
fn opening_of(alloc: Global, tables: &ColumnTables, count: u32) -> Result<Opening, AllocError>
    requires { count ≡ 0 → tables.now ≡ new_document }
    ensures { IfOk result (λ o. document_of o ≡ tables.now) }
{
    if count == 0 {
        return Ok(Opening::NewDocument);
    }
    Ok(Opening::Copied(tables.copy(alloc)?))
}

// Counts a document and evaluates it.
fn evaluated<R: Threads + Sync>(
    rt: &R,
    alloc: Global,
    tables: ColumnTables,
    count: u32,
) -> Result<Loaded, AllocError>
    requires whole { IsWhole tables }
    requires first { count ≡ 0 → tables ≡ new_document }
    ensures { IfOk result (λ l. IsLoadedAs tables count l) }
{
    let opening = opening_of(alloc, &tables, count)?;
    let Some(tally) = Tally::of(&tables) else {
        // Never taken: no memory holds so much.
        return Err(AllocError);
    };
    let doc = RuledDocument::new(alloc, Doc::start(rt, alloc, tables)?)?;
    Ok(Loaded {
        opening,
        doc,
        tally,
        count,
    })
}

// Takes the records of the keeper into the tables, and answers how many they are.
fn take_records<K: Keeper>(
    alloc: Global,
    keeper: &mut K,
    tables: &mut ColumnTables,
) -> Result<u32, StartCause>
    requires first { tables.old ≡ new_document }
    ensures same { K.records keeper.new ≡ K.records keeper.old }
    ensures later { K.failures keeper.old ≤ K.failures keeper.new }
    ensures fault { IfErr result (λ cause. cause ≡ StoreFault
        → Rose (K.failures keeper.old) (K.failures keeper.new)) }
    ensures ok { IfOk result (λ n. Opens (K.records keeper.old) new_document tables.new n) }
    ensures whole { IsWhole tables.new }
    ensures bad { IfErr result (λ cause. (n : ℕ) → cause ≡ BadStore n
        → FirstBad (K.records keeper.old) new_document n) }
{
    new_document_law();
    match open_records(alloc, keeper, tables) {
        Ok(count) => Ok(count),
        Err(cause) => Err(cause),
    }
}

/// Makes the keeper ready, and makes a document of its records, each of which is loaded once. The
/// document is evaluated once.
///
/// Errors: `StoreFault`, where the keeper's count of faults rose; `BadStore`; out of memory.
pub(crate) fn load<R: Threads + Sync, K: Keeper>(
    rt: &R,
    alloc: Global,
    keeper: &mut K,
) -> Result<Loaded, StartCause>
    ensures same { K.records keeper.new ≡ K.records keeper.old }
    ensures later { K.failures keeper.old ≤ K.failures keeper.new }
    ensures fault { IfErr result (λ cause. cause ≡ StoreFault
        → Rose (K.failures keeper.old) (K.failures keeper.new)) }
    ensures ok { IfOk result (λ l. IsLoaded (K.records keeper.old) l) }
    ensures bad { IfErr result (λ cause. (n : ℕ) → cause ≡ BadStore n
        → FirstBad (K.records keeper.old) new_document n) }
{
    if let Err(cause) = make_ready(keeper) {
        return Err(cause);
    }
    let Ok(mut tables) = ColumnTables::new_document(alloc) else {
        return Err(StartCause::NoMemory);
    };
    match take_records(alloc, keeper, &mut tables) {
        Ok(count) => match evaluated(rt, alloc, tables, count) {
            Ok(loaded) => Ok(loaded),
            Err(_) => Err(StartCause::NoMemory),
        },
        Err(cause) => Err(cause),
    }
}
