//! Readers of shots.
ghost use Rattle.std.specs.Prelude.{◌≡◌, max, IfOk};
ghost use Rattle.snap_reads.specs.Views.{IsPeek, TakesOn};

use crate::past::Mark;
use crate::rule::{Course, Look, View};
use crate::shot::{Question, Shot};
use left_right::reader::Reader;
use std::marker::Model;

pub(crate) type InnerReader<T, O> = Reader<
    T,
    View<<T as Shot<O>>::Opening, <T as Shot<O>>::Entry>,
    Course<O>,
>;

/// A reader of shots. It waits for nobody.
///
/// Contracts see the histories that it took or was told of, and how many entries the one that it
/// takes is to have (`ReaderView`).
#[derive(Drop)]
pub struct ShotReader<T: Shot<O>, O: Drop> {
    reader: InnerReader<T, O>,
    least: u64,
}

impl<T: Shot<O>, O: Drop> Model for ShotReader<T, O> {
    ghost use Rattle.snap_reads.specs.Views.{ReaderView};

    ghost Value = { ReaderView T.Opening T.Entry };

    ghost view = { λ r. record { known = r.reader.place.me.0.client.known; least = r.least } };
}

/// No shot was found that is as new as the marks ask, or the writer is gone.
#[derive(Clone, Copy, PartialEq)]
pub struct NoShot;

impl<T: Shot<O>, O: Drop> ShotReader<T, O> {
    pub(crate) fn of(reader: InnerReader<T, O>) -> ShotReader<T, O>
        ensures known { result.known ≡ reader.place.me.0.client.known }
        ensures least { result.least ≡ 0 }
    {
        ShotReader { reader, least: 0 }
    }

    /// Takes no shot from now on that is older than the mark. Memory: none.
    pub fn learn(&mut self, mark: Mark)
        ensures known { self.new.known ≡ self.old.known }
        ensures least { self.new.least ≡ max self.old.least mark.entries }
    {
        self.least = self.least.max(mark.entries);
    }

    /// Asks the shot that is shown.
    ///
    /// While it is asked the writer may wait for it, at its second publishing from then on.
    /// Errors: `NoShot`; a shot may have been taken all the same.
    /// Memory: what the question takes.
    pub fn peek<Q: Question<T, O>>(
        self,
        question: Q,
    ) -> (ShotReader<T, O>, Result<Q::Answer, NoShot>)
        ensures takes { TakesOn self.known result.0.known }
        ensures least { result.0.least ≡ self.least }
        ensures answer { IfOk result.1 (λ answer.
            IsPeek T.past T.stands (λ s a. Q.answers s question a)
            self.known self.least result.0.known answer) }
    {
        let ShotReader { reader, least } = self;
        match reader.enter_as::<Look<O>>() {
            Ok(reading) => {
                let shot = reading.get();
                if shot.entries() < least {
                    let reader = reading.leave();
                    return (ShotReader { reader, least }, Err(NoShot));
                }
                let answer = question.ask(shot);
                let reader = reading.leave();
                (ShotReader { reader, least }, Ok(answer))
            }
            Err(reader) => (ShotReader { reader, least }, Err(NoShot)),
        }
    }
}
