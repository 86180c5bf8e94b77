//! What a gate lets threads step, one at a time.
ghost use Rattle.std.specs.Prelude.{◌≡◌, ◌≤◌, ◌^◌, List, length, IfOk, OnErr, IsOk};
ghost use Rattle.session_gate.specs.History.{AddsOneOrNone};

use std::alloc::AllocError;
use std::sync::Wait;
use std::thread::Threads;

/// A machine with a history, which each step lengthens by one entry or leaves as it is.
///
/// The ghost members are what its contract speaks of; a gate's clauses speak of them alone, and it
/// says nothing of how the machine keeps its history, or whether it keeps it at all.
pub trait Machine {
    /// What a caller asks.
    type Event;

    /// What a step adds to the history.
    type Entry;

    /// What a step answers.
    type Out;

    /// What the history began from.
    type Opening;

    /// What the history began from. It stays.
    ghost opening: { Self → Self.Opening };

    /// The entries so far, in order.
    ghost history: { Self → List Self.Entry };

    /// The events that it takes.
    ghost takes: { Self.Event → Type 0 };

    /// The events that it takes without memory, after that opening and history.
    ghost is_sure: { Self.Opening → List Self.Entry → Self.Event → Type 0 };

    /// The answers that it may give: of the opening, the history before and after the step, the
    /// event and the answer.
    ghost answers: { Self.Opening → List Self.Entry → List Self.Entry → Self.Event → Self.Out
        → Type 0 };

    /// Takes one event, and answers it.
    ///
    /// Errors: out of memory; the history is then as it was.
    fn step<R: Threads + Wait + Sync>(
        &mut self,
        rt: &R,
        event: Self::Event,
    ) -> Result<Self::Out, AllocError>
        requires { takes event }
        ensures opening { opening self.new ≡ opening self.old }
        ensures grows { AddsOneOrNone (history self.old) (history self.new) }
        ensures ok { IfOk result (λ out.
            answers (opening self.old) (history self.old) (history self.new) event out) }
        ensures err { OnErr result (history self.new ≡ history self.old) }
        ensures sure { is_sure (opening self.old) (history self.old) event → IsOk result };

    /// Counts the entries of the history, of which there are never more than 2^62.
    ///
    /// Memory: none.
    fn entries(&self) -> u64
        ensures count { result ≡ length (history self.now) }
        ensures few { length (history self.now) ≤ 2 ^ 62 };
}
