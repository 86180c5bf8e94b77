//! One turn of a seat: the machine is taken out, steps, and goes back.
ghost use Rattle.std.specs.Prelude.{◌≡◌, true, [], ◌∷◌, Some, None, IfOk, IsOk, OnErr};
ghost use Rattle.session_gate.specs.History.{IsTurn, entries_of, grown};
ghost use Rattle.session_gate.specs.Known.{resting};
ghost use Rattle.session_gate.specs.Steps.{IsWon, IsOut};
ghost use Rattle.session_gate.specs.Seats.{shown, IsIdle};
ghost use Rattle.session_gate.specs.Call.{IsSamePass, IsCall, SeesMore, HasSeenLegal, IsSureAt};

use crate::machine::Machine;
use crate::table::{GateSeat, GateShared, TurnReturned, TurnWon};
use std::alloc::AllocError;
use std::sync::Wait;
use std::thread::Threads;

// Waits for the turn, and takes it. The machine is then out with the seat.
//
// A thread that finds the turn held sleeps until one is returned, so it costs no processor time.
// Each return wakes one sleeper, and whoever wins returns in its turn, so none is left asleep. The
// kernel compares the low half of the word, which is odd exactly while a turn is held.
fn win<M: Machine, R: Wait>(rt: &R, shared: &GateShared<M>, seat: &mut GateSeat<M>)
    requires table { (seat.old.table_id ≡ shared.now.table_id) × (shared.now.table_id.words ≡ 1) }
    requires idle { IsIdle seat.old }
    ensures same { (seat.new.table_id ≡ seat.old.table_id) × (seat.new.id ≡ seat.old.id) }
    ensures won { IsWon M.history M.opening M.takes M.answers seat.old.me seat.new.me }
{
    let mut word = shared.peek(0);
    for _ in rt.forever() {
        if word % 2 == 0 {
            let found = shared.compare_exchange::<TurnWon<M>>(seat, 0, word, word + 1);
            if found == word {
                return;
            }
            word = found;
        } else {
            shared.park(rt, 0, (word & 0xffff_ffff) as u32);
            word = shared.peek(0);
        }
    }
    unreachable!()
}

// Wins the turn, and takes the machine out of the slot.
fn take_out<M: Machine, R: Wait>(rt: &R, shared: &GateShared<M>, seat: &mut GateSeat<M>) -> M
    requires table { (seat.old.table_id ≡ shared.now.table_id) × (shared.now.table_id.words ≡ 1) }
    requires idle { IsIdle seat.old }
    ensures same { (seat.new.table_id ≡ seat.old.table_id) × (seat.new.id ≡ seat.old.id) }
    ensures out { (k : _) × (seat.old.me ≡ (Some k, []))
        × IsOut M.history M.opening M.takes M.answers k seat.new.me result }
{
    win(rt, shared, seat);
    let Some(machine) = shared.exchange(seat, 0, None) else {
        unreachable!()
    };
    machine
}

// Hands the machine back, gives the turn up, and wakes one who waits for it.
fn give_back<M: Machine>(shared: &GateShared<M>, seat: &mut GateSeat<M>, machine: M)
    requires table { (seat.old.table_id ≡ shared.now.table_id) × (shared.now.table_id.words ≡ 1) }
    requires turn { (k : _) × (seat.old.me ≡ (Some k, (0, None) ∷ [])) × (k.turn ≡ true)
        × (M.opening machine ≡ k.opening)
        × IsTurn M.takes M.answers k.opening (entries_of k.seen) (M.history machine) }
    ensures same { (seat.new.table_id ≡ seat.old.table_id) × (seat.new.id ≡ seat.old.id) }
    ensures back { (k : _) → seat.old.me ≡ (Some k, (0, None) ∷ [])
        → seat.new.me ≡ (Some (resting k (grown k.number k.seen (M.history machine))), []) }
{
    let entries = machine.entries();
    let word = 2 * entries;
    let out = shared.exchange(seat, 0, Some(machine));
    let None = out else { unreachable!() };
    shared.swap::<TurnReturned<M>>(seat, 0, word);
    shared.wake_one(0);
}

// One call of the pass that the seat shows.
pub(crate) fn take_turn<M: Machine, R: Threads + Wait + Sync>(
    rt: &R,
    shared: &GateShared<M>,
    seat: &mut GateSeat<M>,
    event: M::Event,
) -> Result<M::Out, AllocError>
    requires table { (seat.old.table_id ≡ shared.now.table_id) × (shared.now.table_id.words ≡ 1) }
    requires idle { IsIdle seat.old }
    requires takes { M.takes event }
    ensures same { IsSamePass (shown seat.old) (shown seat.new) }
    ensures idle { IsIdle seat.new }
    ensures ok { IfOk result (λ out. IsCall M.answers (shown seat.old) (shown seat.new) event out) }
    ensures err { OnErr result (SeesMore (shown seat.old) (shown seat.new)) }
    ensures sure { IsSureAt M.takes M.answers M.is_sure (shown seat.old) event → IsOk result }
    ensures legal { HasSeenLegal M.takes M.answers (shown seat.new) }
{
    let mut machine = take_out(rt, shared, seat);
    let answer = machine.step(rt, event);
    give_back(shared, seat, machine);
    answer
}
