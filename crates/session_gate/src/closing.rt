//! How a gate is closed.
ghost use Rattle.std.specs.Prelude.{◌≡◌, ◌<◌, ◌↔◌, All, length, IfOk, IfErr, IsErr, vec_len};
ghost use Rattle.session_gate.specs.Seats.{IsGathered};
ghost use Rattle.session_gate.specs.Gate.{IsPassOf, IsWhole};

use crate::gate::Gate;
use crate::machine::Machine;
use crate::pass::{Pass, PassList};
use crate::table::{GateSeat, GateShared, HandBack};

/// Passes are missing: fewer were handed in than the gate made. All comes back.
#[derive(Drop)]
pub struct Unjoined<M: Machine> {
    pub gate: Gate<M>,
    pub passes: PassList<M>,
    pub made: u32,
}

// All passes are handed back to one.
fn gather<M: Machine>(shared: &GateShared<M>, mut passes: Vec<Pass<M>>) -> GateSeat<M>
    requires words { 0 < shared.now.table_id.words }
    requires some { 0 < vec_len passes }
    requires all { All (λ p. p.gate ≡ shared.now.table_id) passes.items }
    ensures { IsGathered shared.now.table_id passes.items result }
{
    let Some(last) = passes.pop() else {
        unreachable!()
    };
    let mut all = last.into_seat();
    while let Some(pass) = passes.pop() {
        shared.join_seat::<HandBack>(&mut all, pass.into_seat());
    }
    all
}

impl<M: Machine> Gate<M> {
    /// Takes the machine out for good, once all passes are back.
    ///
    /// Errors: `Unjoined`, exactly where fewer passes are handed in than were made; all comes back
    /// as it was. There cannot be more than were made.
    /// Memory: none. Cost: one atomic step a pass.
    pub fn close(self, passes: PassList<M>) -> Result<M, Unjoined<M>>
        requires { All (IsPassOf self) passes }
        ensures ok { IfOk result (λ m.
            (log : _) × IsWhole M.history M.opening M.takes M.answers self m passes log) }
        ensures unjoined { IsErr result ↔ (length passes < self.made) }
        ensures err { IfErr result (λ u.
            (u.gate ≡ self) × (u.passes ≡ passes) × (u.made ≡ self.made)) }
    {
        if passes.len() < self.made as usize {
            let made = self.made;
            return Err(Unjoined {
                gate: self,
                passes,
                made,
            });
        }
        let Gate { table, made: _ } = self;
        let seat = gather(&table.shared, passes.into_vec());
        let mut closed = table.close_with(seat);
        let out = closed.take(0);
        closed.free();
        let Some(machine) = out else { unreachable!() };
        Ok(machine)
    }
}
