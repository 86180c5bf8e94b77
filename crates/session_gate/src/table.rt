//! The gate's table: one word, one slot, and the rule and steps that they move by.
//!
//! The word is twice the number of entries, and one more while a turn is held. The machine is in
//! the slot while the word is even, and out with the holder while it is odd.
//!
//! | Kind          | Moves                                             | Here                     |
//! |---------------|---------------------------------------------------|--------------------------|
//! | turn won      | compare and exchange, 2h to 2h + 1                | `TurnWon`, word expected |
//! | turn lost     | the same, refused                                 | `TurnWon`, another word  |
//! | slot out      | the machine leaves the slot                       | `exchange` for None      |
//! | slot in       | the machine comes home                            | `exchange` for Some      |
//! | turn returned | swap of 2h + 1 for twice the new count            | `TurnReturned`           |
//! | split         | a seat makes the next pass, in `new`              | `NextPass`               |
//! | join          | a pass is handed back to another, in `close`      | `HandBack`               |
//! | close         | the table is taken apart                          | `close_with`             |
use crate::known::Known;
use crate::machine::Machine;
use atomic_table::{Join, Play, Seat, Shared, Split, Table, TableRule};
use std::alloc::Global;
use std::marker::PhantomData;
use std::snapshot::Snapshot;

// The table with its memory, what threads share of it, and what one of them steps with.
pub(crate) type GateTable<M> = Table<
    Option<M>,
    Option<Known<<M as Machine>::Entry, <M as Machine>::Opening>>,
    Start<M>,
    Turns<M>,
    Global,
>;

pub(crate) type GateShared<M> = Shared<
    Option<M>,
    Option<Known<<M as Machine>::Entry, <M as Machine>::Opening>>,
    Start<M>,
    Turns<M>,
>;

pub(crate) type GateSeat<M> = Seat<
    Option<M>,
    Option<Known<<M as Machine>::Entry, <M as Machine>::Opening>>,
>;

/// What the table is told once: the machine as it was brought, for the proof alone, and how many
/// passes there will be.
#[derive(Drop)]
pub struct Start<M> {
    pub machine: Snapshot<M>,
    pub passes: u64,
}

/// The rule that holds between any two steps.
pub struct Turns<M> {
    of: PhantomData<M>,
}

impl<M: Machine> TableRule<Option<M>, Option<Known<M::Entry, M::Opening>>, Start<M>> for Turns<M> {
    ghost use Rattle.session_gate.specs.Rule.{Kept};
    ghost use Rattle.session_gate.specs.Known.{first_seat};

    ghost holds = { λ k. Kept M.history M.opening M.takes M.answers k.machine.value k.passes };

    ghost first = { λ k. first_seat M.history M.opening k.machine.value k.passes };
}

/// A turn was won, or lost.
pub struct TurnWon<M> {
    of: PhantomData<M>,
}

impl<M: Machine> Play<Option<M>, Option<Known<M::Entry, M::Opening>>> for TurnWon<M> {
    ghost use Rattle.session_gate.specs.Steps.{wins_or_loses};

    ghost then = { wins_or_loses M.history M.opening M.takes M.answers };
}

/// The machine is back, and the turn given up.
pub struct TurnReturned<M> {
    of: PhantomData<M>,
}

impl<M: Machine> Play<Option<M>, Option<Known<M::Entry, M::Opening>>> for TurnReturned<M> {
    ghost use Rattle.session_gate.specs.Steps.{returns_turn};

    ghost then = { returns_turn M.history };
}

/// A new pass, which is the last one so far. The one that made it makes no more.
pub struct NextPass;

impl<E, O> Split<Option<Known<E, O>>> for NextPass {
    ghost use Rattle.session_gate.specs.Known.{dealt, next_seat};

    ghost left = { dealt };

    ghost right = { next_seat };
}

/// A pass is handed back.
pub struct HandBack;

impl<E, O> Join<Option<Known<E, O>>> for HandBack {
    ghost use Rattle.std.specs.Prelude.{None};
    ghost use Rattle.session_gate.specs.Known.{gathered};

    ghost both = { gathered };

    ghost spent = { None };
}
