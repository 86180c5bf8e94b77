//! Turns at one machine: threads step it one at a time, and each knows where its calls stand.
//!
//! Stands on `atomic_table` (words that change in single steps, slots, and a rule over both) and on
//! nothing of the document. Used by whoever shares a machine among threads.
//!
//! Promises: `call` answers what the machine answers at one point of one legal history. It begins
//! with all that the pass had seen, and the call's own entry, if there is one, stands once at its
//! end. `close` gives back the machine whose history all passes have seen beginnings of, each with
//! all of its own calls. Between any two steps the rule in specs/Rule.antt holds.
//! Not promised: that a call that waits returns, who is served first, fairness, time.
//! Read first: machine.rt, then specs/Call.antt, then table.rt for the steps.
#![tactic(auto)]

mod closing;
mod dealing;
mod gate;
mod known;
mod machine;
mod pass;
mod table;
mod turn;

pub use closing::Unjoined;
pub use dealing::NoGate;
pub use gate::Gate;
pub use known::{Known, Made, Told};
pub use machine::Machine;
pub use pass::{Pass, PassList};
