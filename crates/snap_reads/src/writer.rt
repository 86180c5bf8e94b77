//! The writer of shots.
ghost use Rattle.std.specs.Prelude.{◌≡◌, ◌⊎◌, true, false, [], ◌∷◌, drop, take, length, IfOk, IfSome, IsNone, MatchResult};
ghost use Rattle.snap_reads.specs.Shots.{LeadsAll, last_of};

use crate::past::Mark;
use crate::reader::ShotReader;
use crate::rule::{Course, Look, Notes, View};
use crate::shot::Shot;
use left_right::writer::Writer;
use std::alloc::AllocError;
use std::marker::Model;
use std::sync::Wait;

pub(crate) type InnerWriter<T, O> = Writer<
    T,
    O,
    View<<T as Shot<O>>::Opening, <T as Shot<O>>::Entry>,
    Course<O>,
>;

/// The writer of shots. It is not `Drop`: `give_up` ends it.
///
/// Contracts see the history that readers take, the one that the last operation leads to, and
/// whether an operation was lost (`WriterView`).
pub struct ShotWriter<T: Shot<O>, O: Drop> {
    writer: InnerWriter<T, O>,
    lost: bool,
}

impl<T: Shot<O>, O: Drop> Model for ShotWriter<T, O> {
    ghost use Rattle.std.specs.Prelude.{◌≡◌, ◌∷◌, [], drop, take};
    ghost use Rattle.snap_reads.specs.Shots.{LeadsAll, last_of};
    ghost use Rattle.snap_reads.specs.Views.{WriterView};

    ghost Value = { WriterView T.Opening T.Entry };

    ghost view = { λ w. record {
      published = T.past (T.state w.writer.desk.shown.value);
      last = last_of T.led_to (T.past (T.state w.writer.desk.shown.value))
          (drop w.writer.behind w.writer.log.items);
      lost = w.lost;
    } };

    ghost invariant = { λ w. T.stands (T.state w.writer.desk.shown.value)
        × LeadsAll T.led_to T.leads (T.past (T.state w.writer.desk.shown.value))
        (drop w.writer.behind w.writer.log.items)
        × (take 1 w.writer.desk.place.me.0.client.known
        ≡ T.past (T.state w.writer.desk.shown.value) ∷ []) };
}

impl<T: Shot<O>, O: Drop> ShotWriter<T, O> {
    // A writer with nothing pending, which knows what is shown.
    pub(crate) fn of(writer: InnerWriter<T, O>) -> ShotWriter<T, O>
        requires stands { T.stands (T.state writer.desk.shown.value) }
        requires pending { drop writer.behind writer.log.items ≡ [] }
        requires known { take 1 writer.desk.place.me.0.client.known
            ≡ T.past (T.state writer.desk.shown.value) ∷ [] }
        ensures published { result.published ≡ T.past (T.state writer.desk.shown.value) }
        ensures last { result.last ≡ result.published }
        ensures lost { result.lost ≡ false }
    {
        ShotWriter {
            writer,
            lost: false,
        }
    }

    /// Publishes all that was handed over so far, and then this operation. It waits for readers
    /// that took a shot before the last publishing.
    ///
    /// None: out of memory, and nothing is published. The operation waits for the next call, or it
    /// is lost; then nothing is published any more.
    #[tactic(auto, using(crate::proofs::Histories::leads_snoc, crate::proofs::Histories::last_snoc))]
    pub fn publish<R: Wait>(self, rt: &R, op: O) -> (ShotWriter<T, O>, Option<Mark>)
        requires leads { self.lost ≡ false → T.leads self.last op }
        ensures some { IfSome result.1 (λ mark. (result.0.published ≡ T.led_to op)
            × (mark.entries ≡ length (T.led_to op).entries)
            × (result.0.last ≡ result.0.published)
            × (self.lost ≡ false) × (result.0.lost ≡ false)) }
        ensures none { IsNone result.1 → (result.0.published ≡ self.published)
            × (((result.0.last ≡ T.led_to op) × (result.0.lost ≡ self.lost))
            ⊎ (result.0.lost ≡ true)) }
        ensures lost { self.lost ≡ true → IsNone result.1 × (result.0.lost ≡ true) }
    {
        let ShotWriter { mut writer, lost } = self;
        if lost {
            return (ShotWriter { writer, lost }, None);
        }
        if writer.append(op).is_err() {
            return (ShotWriter { writer, lost: true }, None);
        }
        let (writer, answer) = shown(writer, rt);
        match answer {
            Ok(()) => {
                let writer = ShotWriter { writer, lost };
                let mark = writer.mark();
                (writer, Some(mark))
            }
            Err(_) => (ShotWriter { writer, lost }, None),
        }
    }

    /// Publishes nothing any more: an operation could not be made.
    ///
    /// Memory: none.
    pub fn lose(&mut self)
        ensures published { self.new.published ≡ self.old.published }
        ensures lost { self.new.lost ≡ true }
    {
        self.lost = true;
    }

    /// How many entries the history has that readers take.
    ///
    /// Memory: none.
    pub fn mark(&self) -> Mark
        ensures { result.entries ≡ length self.now.published.entries }
    {
        Mark {
            entries: self.writer.published().entries(),
        }
    }

    /// A reader that was told what is published, where there is a place for one.
    ///
    /// Errors: out of memory, or each place is taken.
    pub fn reader(&mut self) -> Result<ShotReader<T, O>, AllocError>
        ensures told { IfOk result (λ reader.
            (reader.known ≡ self.old.published ∷ []) × (reader.least ≡ 0)) }
        ensures same { self.new ≡ self.old }
    {
        let mut reader = self.writer.factory().reader()?;
        reader.learn::<Notes>(self.writer.tell::<Notes>());
        Ok(ShotReader::of(reader))
    }

    /// Gives the writer up. It waits for readers; from then on they find no shot.
    pub fn give_up<R: Wait>(self, rt: &R) {
        let ShotWriter { writer, lost: _ } = self;
        writer.take(rt);
    }
}

// Shows what is pending.
pub(crate) fn shown<T: Shot<O>, O: Drop, R: Wait>(
    writer: InnerWriter<T, O>,
    rt: &R,
) -> (InnerWriter<T, O>, Result<(), AllocError>)
    requires { LeadsAll T.led_to T.leads (T.past (T.state writer.desk.shown.value))
        (drop writer.behind writer.log.items) }
    ensures { MatchResult result.1
        (λ _. T.stands (T.state result.0.desk.shown.value)
        × (T.past (T.state result.0.desk.shown.value)
        ≡ last_of T.led_to (T.past (T.state writer.desk.shown.value))
        (drop writer.behind writer.log.items))
        × (drop result.0.behind result.0.log.items ≡ [])
        × (take 1 result.0.desk.place.me.0.client.known
        ≡ T.past (T.state result.0.desk.shown.value) ∷ []))
        (λ _. (result.0.desk.shown.value ≡ writer.desk.shown.value)
        × (drop result.0.behind result.0.log.items ≡ drop writer.behind writer.log.items)
        × (result.0.desk.place.me.0.client ≡ writer.desk.place.me.0.client)) }
{
    writer.publish_as::<Look<O>, R>(rt)
}
