//! The right to call, and a list of such rights.
ghost use Rattle.std.specs.Prelude.{◌≡◌, ◌↔◌, length, IsTrue};
ghost use Rattle.session_gate.specs.Seats.{shown, IsIdle};

use crate::machine::Machine;
use crate::table::GateSeat;
use std::marker::Model;

/// The right to call at a gate, for one thread at a time.
///
/// Contracts see which gate it is of, its number, the machine's opening, and the beginning of the
/// history that it has seen (`PassView`).
pub struct Pass<M: Machine> {
    pub(crate) seat: GateSeat<M>,
}

impl<M: Machine> Model for Pass<M> {
    ghost use Rattle.session_gate.specs.Views.{PassView};

    ghost Value = { PassView M.Entry M.Opening };

    ghost use Rattle.session_gate.specs.Seats.{shown, IsIdle};

    ghost view = { λ p. shown p.seat };

    ghost invariant = { λ p. IsIdle p.seat };
}

// By hand, since a derive would ask it of the machine.
impl<M: Machine> Drop for Pass<M> {
    fn drop(self) {
        let Pass { seat: _ } = self;
    }
}

impl<M: Machine> Pass<M> {
    pub(crate) fn into_seat(self) -> GateSeat<M>
        ensures same { shown result ≡ self }
        ensures idle { IsIdle result }
    {
        let Pass { seat } = self;
        seat
    }
}

/// Passes, seen as the list of them.
pub struct PassList<M: Machine> {
    passes: Vec<Pass<M>>,
}

impl<M: Machine> Model for PassList<M> {
    ghost use Rattle.std.specs.Prelude.{List};
    ghost use Rattle.session_gate.specs.Views.{PassView};

    ghost Value = { List (PassView M.Entry M.Opening) };

    ghost view = { λ l. l.passes.items };
}

impl<M: Machine> Drop for PassList<M> {
    fn drop(self) {
        let PassList { passes: _ } = self;
    }
}

impl<M: Machine> From<Vec<Pass<M>>> for PassList<M> {
    ghost from_gives = { λ passes list. list ≡ passes.items };

    fn from(passes: Vec<Pass<M>>) -> PassList<M> {
        PassList { passes }
    }
}

impl<M: Machine> PassList<M> {
    /// The passes, in their order. Memory: none.
    pub fn into_vec(self) -> Vec<Pass<M>>
        ensures { result.items ≡ self }
    {
        let PassList { passes } = self;
        passes
    }

    /// How many passes there are.
    pub fn len(&self) -> usize
        ensures { result ≡ length self.now }
    {
        self.passes.len()
    }

    /// Whether there is no pass.
    pub fn is_empty(&self) -> bool
        ensures { IsTrue result ↔ (length self.now ≡ 0) }
    {
        self.passes.is_empty()
    }
}
