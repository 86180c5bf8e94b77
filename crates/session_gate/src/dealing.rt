//! How a gate and its passes are made.
ghost use Rattle.std.specs.Prelude.{◌≡◌, ◌+◌, ◌<◌, ◌≤◌, ◌++◌, ◌∷◌, [], All, IfOk, IfErr, vec_len, vec_capacity};
ghost use Rattle.session_gate.specs.Known.{first_seat};
ghost use Rattle.session_gate.specs.Seats.{shown, IsIdle, AreNew, IsDealer};
ghost use Rattle.session_gate.specs.Gate.{IsPassOf, AreAllNew};

use crate::gate::Gate;
use crate::machine::Machine;
use crate::pass::{Pass, PassList};
use crate::table::{GateSeat, GateShared, GateTable, NextPass, Start};
use atomic_table::{Refused, Table};
use std::alloc::{AllocFailed, Global};
use std::snapshot::Snapshot;

/// There was no memory for a gate. The machine comes back as it was.
#[derive(Drop)]
pub struct NoGate<M> {
    pub machine: M,
}

// The table with the machine at home, and its first seat.
fn open_table<M: Machine>(
    alloc: Global,
    machine: M,
    passes: u32,
) -> Result<(GateTable<M>, GateSeat<M>), NoGate<M>>
    requires { 0 < passes }
    ensures size { IfOk result (λ t.
        (t.0.shared.table_id.words ≡ 1) × (t.0.shared.table_id.slots ≡ 1)) }
    ensures key { IfOk result (λ t.
        (t.0.shared.key.passes ≡ passes) × (t.0.shared.key.machine.value ≡ machine)) }
    ensures seat { IfOk result (λ t.
        (t.1.table_id ≡ t.0.shared.table_id)
        × (t.1.me ≡ (first_seat M.history M.opening machine passes, []))) }
    ensures err { IfErr result (λ n. n.machine ≡ machine) }
{
    let word = 2 * machine.entries();
    let start = Start {
        machine: Snapshot::of(&machine),
        passes: passes as u64,
    };
    let mut slots = Vec::new(alloc);
    if let Err(AllocFailed { value }) = slots.push(Some(machine)) {
        slots.destroy_empty();
        let Some(machine) = value else { unreachable!() };
        return Err(NoGate { machine });
    }
    match Table::new(alloc, &[word], slots, &start) {
        Ok(made) => Ok(made),
        Err(Refused { mut slots }) => {
            let Some(Some(machine)) = slots.pop() else {
                unreachable!()
            };
            slots.destroy_empty();
            Err(NoGate { machine })
        }
    }
}

// Puts one more pass into the list, which has room for it.
fn add_pass<M: Machine>(list: &mut Vec<Pass<M>>, seat: GateSeat<M>)
    requires idle { IsIdle seat }
    requires room { vec_len list.old < vec_capacity list.old }
    ensures added { list.new.items ≡ list.old.items ++ shown seat ∷ [] }
    ensures capacity { vec_capacity list.old ≤ vec_capacity list.new }
    ensures count { vec_len list.new ≡ vec_len list.old + 1 }
{
    let Ok(()) = list.push(Pass { seat }) else {
        unreachable!()
    };
}

// Makes all passes of the first one, each by the one before it.
fn deal<M: Machine>(
    shared: &GateShared<M>,
    mut seat: GateSeat<M>,
    passes: u32,
    list: &mut Vec<Pass<M>>,
)
    requires count { (0 < passes) × (shared.now.key.passes ≡ passes) }
    requires words { 0 < shared.now.table_id.words }
    requires dealer { let start = shared.now.key.machine.value in
        IsDealer shared.now.table_id (M.opening start) (M.history start) passes 0 seat }
    requires room { (list.old.items ≡ []) × (passes ≤ vec_capacity list.old) }
    ensures each { let start = shared.now.key.machine.value in
        AreNew shared.now.table_id (M.opening start) (M.history start) list.new.items }
    ensures own { All (λ p. p.gate ≡ shared.now.table_id) list.new.items }
    ensures count { vec_len list.new ≡ passes }
{
    for _made in 0..passes - 1 {
        let next = shared.split_seat::<NextPass>(&mut seat);
        add_pass(list, seat);
        seat = next;
    }
    add_pass(list, seat);
}

impl<M: Machine> Gate<M> {
    /// Makes a gate round a machine, with its passes.
    ///
    /// The passes are numbered from 0, and each has seen the history that the machine brought.
    /// Errors: `NoGate`, which is out of memory and hands the machine back.
    /// Memory: the list of the passes, one word and one slot.
    pub fn new(alloc: Global, machine: M, passes: u32) -> Result<(Gate<M>, PassList<M>), NoGate<M>>
        requires { (0 < passes) × (passes ≤ 64) }
        ensures gate { IfOk result (λ r. (r.0.start ≡ machine) × (r.0.made ≡ passes)) }
        ensures each { IfOk result (λ r. AreAllNew M.history M.opening r.0 r.1) }
        ensures own { IfOk result (λ r. All (IsPassOf r.0) r.1) }
        ensures err { IfErr result (λ n. n.machine ≡ machine) }
    {
        let Ok(mut list) = Vec::with_capacity(alloc, passes as usize) else {
            return Err(NoGate { machine });
        };
        let (table, seat) = open_table(alloc, machine, passes)?;
        deal(&table.shared, seat, passes, &mut list);
        let gate = Gate {
            table,
            made: passes,
        };
        Ok((gate, PassList::from(list)))
    }
}
