//! The document that the records of a keeper lead to, evaluated.

ghost use Rattle.std.specs.Prelude.{ℕ, ◌≡◌, ◌≤◌, IfErr, IfOk};
ghost use Rattle.io_edges.specs.Causes.{Rose};
ghost use Rattle.doc_model.specs.DocumentLaws.{IsWhole};
ghost use Rattle.doc_model.specs.NewDocument.{new_document};
ghost use Rattle.doc_opening.specs.Opening.{FirstBad, Opens};
ghost use Rattle.doc_opening.specs.declared.opening.StartCause.TheVariants.{BadStore, StoreFault};

use column_store::ColumnTables;
use doc_keeper::{KeepFault, Keeper};
use doc_model::laws::new_document_law;
use doc_opening::{StartCause, open_records};
use evaluated_doc::Doc;
use std::alloc::Global;
use std::thread::Threads;

/// A document that was made of so many records, evaluated.
#[derive(Drop)]
pub(crate) struct OpenedDocument {
    pub doc: Doc<ColumnTables>,
    pub count: u32,
}

// Makes the keeper ready.
fn make_ready<K: Keeper>(keeper: &mut K) -> Result<(), StartCause>
    ensures same { K.records keeper.new ≡ K.records keeper.old }
    ensures later { K.failures keeper.old ≤ K.failures keeper.new }
    ensures fault { IfErr result (λ cause. cause ≡ StoreFault
        → Rose (K.failures keeper.old) (K.failures keeper.new)) }
    ensures good { IfErr result (λ cause. (n : ℕ) → cause ≡ BadStore n → ⊥) }
{
    match keeper.ready() {
        Ok(()) => Ok(()),
        Err(KeepFault::Failed) => Err(StartCause::StoreFault),
        Err(KeepFault::NoMemory) => Err(StartCause::NoMemory),
    }
}

// Takes the records of the keeper into the tables, and answers how many they are.
fn take_records<K: Keeper>(
    alloc: Global,
    keeper: &mut K,
    tables: &mut ColumnTables,
) -> Result<u32, StartCause>
    requires first { tables.old ≡ new_document }
    ensures same { K.records keeper.new ≡ K.records keeper.old }
    ensures later { K.failures keeper.old ≤ K.failures keeper.new }
    ensures fault { IfErr result (λ cause. cause ≡ StoreFault
        → Rose (K.failures keeper.old) (K.failures keeper.new)) }
    ensures ok { IfOk result (λ n. Opens (K.records keeper.old) new_document tables.new n) }
    ensures whole { IsWhole tables.new }
    ensures bad { IfErr result (λ cause. (n : ℕ) → cause ≡ BadStore n
        → FirstBad (K.records keeper.old) new_document n) }
{
    new_document_law();
    match open_records(alloc, keeper, tables) {
        Ok(count) => Ok(count),
        Err(cause) => Err(cause),
    }
}

/// Makes the keeper ready, and makes an evaluated document of its records, each of which is loaded
/// once.
///
/// Errors: `StoreFault`, where the keeper's count of faults rose; `BadStore`; out of memory.
pub(crate) fn open_document<R: Threads + Sync, K: Keeper>(
    rt: &R,
    alloc: Global,
    keeper: &mut K,
) -> Result<OpenedDocument, StartCause>
    ensures same { K.records keeper.new ≡ K.records keeper.old }
    ensures later { K.failures keeper.old ≤ K.failures keeper.new }
    ensures fault { IfErr result (λ cause. cause ≡ StoreFault
        → Rose (K.failures keeper.old) (K.failures keeper.new)) }
    ensures ok { IfOk result (λ o. Opens (K.records keeper.old) new_document o.doc o.count) }
    ensures bad { IfErr result (λ cause. (n : ℕ) → cause ≡ BadStore n
        → FirstBad (K.records keeper.old) new_document n) }
{
    if let Err(cause) = make_ready(keeper) {
        return Err(cause);
    }
    let Ok(mut tables) = ColumnTables::new_document(alloc) else {
        return Err(StartCause::NoMemory);
    };
    match take_records(alloc, keeper, &mut tables) {
        Ok(count) => match Doc::start(rt, alloc, tables) {
            Ok(doc) => Ok(OpenedDocument { doc, count }),
            Err(_) => Err(StartCause::NoMemory),
        },
        Err(cause) => Err(cause),
    }
}
