//! What a shot is: a value that stands for a history, and that operations lead on.
ghost use Rattle.std.specs.Prelude.{◌≡◌, length};
ghost use Rattle.snap_reads.specs.Past.{Continues};
ghost use Rattle.snap_reads.specs.declared.past.Past.{Past};

use left_right::Absorb;

/// A value that readers take. What its two copies have in common stands for a history, which only
/// clauses read: an operation carries the history that it leads to.
pub trait Shot<O: Drop>: Absorb<O> + Drop {
    /// What the history began from.
    type Opening;

    /// An entry of the history.
    type Entry;

    /// The history that it stands for.
    ghost past: { Self.State → Past Self.Opening Self.Entry };

    /// It is what that history leads to.
    ghost stands: { Self.State → Type 0 };

    /// The history that an operation carries.
    ghost led_to: { O → Past Self.Opening Self.Entry };

    /// The operation makes what its history leads to of what that history leads to.
    ghost leads: { Past Self.Opening Self.Entry → O → Type 0 };

    /// How many entries the history has. Memory: none.
    fn entries(&self) -> u64
        ensures { stands (Self.state self.now)
            → result ≡ length (past (Self.state self.now)).entries };

    /// What took in an operation stands for the history that this carries.
    ghost moves: { (s : Self.State) (op : O) → past (Self.applied s op) ≡ led_to op };

    /// It is what that history leads to, if the operation leads there.
    ghost keeps: { (s : Self.State) (op : O) → stands s → leads (past s) op
        → stands (Self.applied s op) };

    /// An operation leads from a history to one that continues it.
    ghost continues: { (p : Past Self.Opening Self.Entry) (op : O) → leads p op
        → Continues p (led_to op) };
}

/// What is asked of a shot.
pub trait Question<T: Shot<O>, O: Drop>: Drop {
    /// What is answered.
    type Answer;

    /// The answers that it may get of what a shot's copies have in common.
    ghost answers: { T.State → Self → Self.Answer → Type 0 };

    /// Answers from a shot. While it does, the writer may wait for it.
    fn ask(self, shot: &T) -> Self::Answer
        ensures { answers (T.state shot.now) self result };
}
