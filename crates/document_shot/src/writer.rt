//! The writer of shots of a document.

ghost use Rattle.std.specs.Prelude.{◌≡◌, ◌<◌, ◌⊎◌, ◌∷◌, [], false, true, length, IfOk, IfSome, IsNone};
ghost use Rattle.document_shot.specs.Pasts.{past_of};
ghost use Rattle.document_shot.specs.Shots.{Leads};

use crate::making::first_shots;
use crate::operation::DocumentOp;
use crate::reader::PeekReader;
use crate::shot::DocumentShot;
use bundle_core::Core;
use core::mem;
use doc_keeper::Keeper;
use snap_reads::{Mark, ShotWriter, open_shots};
use std::alloc::{AllocError, Global};
use std::marker::Model;
use std::sync::Wait;

/// The writer of shots of a core's document. It is not `Drop`: `give_up` ends it. It is seen as the
/// history that readers take, the one that the last operation leads to, and whether one was lost.
pub struct PeekWriter {
    writer: ShotWriter<DocumentShot, DocumentOp>,
}

impl Model for PeekWriter {
    ghost use Rattle.doc_model.specs.declared.entry.Entry.{Entry};
    ghost use Rattle.snap_reads.specs.Views.{WriterView};
    ghost use Rattle.document_shot.specs.declared.past.CoreStart.{CoreStart};

    ghost Value = { WriterView CoreStart Entry };

    ghost view = { λ w. w.writer };
}

// Publishes what an operation leads to.
fn published<R: Wait>(
    writer: ShotWriter<DocumentShot, DocumentOp>,
    given: (&R, DocumentOp),
) -> (ShotWriter<DocumentShot, DocumentOp>, Option<Mark>)
    requires leads { writer.lost ≡ false → Leads writer.last given.1 }
    ensures some { IfSome result.1 (λ mark. (result.0.published ≡ past_of given.entry.1.past)
        × (mark.entries ≡ length given.entry.1.past.history)
        × (result.0.last ≡ result.0.published)
        × (writer.lost ≡ false) × (result.0.lost ≡ false)) }
    ensures none { IsNone result.1 → (result.0.published ≡ writer.published)
        × (((result.0.last ≡ past_of given.entry.1.past) × (result.0.lost ≡ writer.lost))
        ⊎ (result.0.lost ≡ true)) }
    ensures lost { writer.lost ≡ true → IsNone result.1 × (result.0.lost ≡ true) }
{
    let (rt, operation) = given;
    writer.publish(rt, operation)
}

impl PeekWriter {
    /// A writer of shots of the core's document, with places for so many readers. Readers take it
    /// as it is now.
    ///
    /// Errors: out of memory.
    /// Memory: two copies of the document, and some 256 bytes for each reader.
    pub fn open<K: Keeper, R: Wait>(
        rt: &R,
        alloc: Global,
        core: &Core<K>,
        readers: u32,
    ) -> Result<PeekWriter, AllocError>
        requires { 0 < readers }
        ensures { IfOk result (λ writer. (writer.published ≡ past_of core.now.state)
            × (writer.last ≡ writer.published) × (writer.lost ≡ false)) }
    {
        let (first, second) = first_shots(alloc, core)?;
        let writer = open_shots(rt, alloc, first, second, readers)?;
        Ok(PeekWriter { writer })
    }

    /// Publishes all that was handed over so far, and then this operation. It waits for readers
    /// that took a shot before the last publishing.
    ///
    /// None: out of memory, and nothing is published. The operation waits for the next call, or it
    /// is lost; then nothing is published any more.
    pub fn publish<R: Wait>(&mut self, rt: &R, operation: DocumentOp) -> Option<Mark>
        requires { self.old.lost ≡ false → Leads self.old.last operation }
        ensures some { IfSome result (λ mark. (self.new.published ≡ past_of operation.past)
            × (mark.entries ≡ length operation.past.history)
            × (self.new.last ≡ self.new.published)
            × (self.old.lost ≡ false) × (self.new.lost ≡ false)) }
        ensures none { IsNone result → (self.new.published ≡ self.old.published)
            × (((self.new.last ≡ past_of operation.past) × (self.new.lost ≡ self.old.lost))
            ⊎ (self.new.lost ≡ true)) }
        ensures lost { self.old.lost ≡ true → IsNone result × (self.new.lost ≡ true) }
    {
        mem::replace_with(&mut self.writer, (rt, operation), published::<R>)
    }

    /// Publishes nothing any more: an operation could not be made.
    ///
    /// Memory: none.
    pub fn lose(&mut self)
        ensures published { self.new.published ≡ self.old.published }
        ensures lost { self.new.lost ≡ true }
    {
        self.writer.lose();
    }

    /// A reader that was told what is published, where there is a place for one.
    ///
    /// Errors: out of memory, or each place is taken.
    pub fn reader(&mut self) -> Result<PeekReader, AllocError>
        ensures told { IfOk result (λ reader.
            (reader.known ≡ self.old.published ∷ []) × (reader.least ≡ 0)) }
        ensures same { self.new ≡ self.old }
    {
        Ok(PeekReader::of(self.writer.reader()?))
    }

    /// Gives the writer up. It waits for readers; from then on they find no shot.
    pub fn give_up<R: Wait>(self, rt: &R) {
        let PeekWriter { writer } = self;
        writer.give_up(rt);
    }
}
