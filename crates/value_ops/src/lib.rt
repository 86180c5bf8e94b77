//! The operators of formulas on values: arithmetic, joining, comparison, membership and truth.
//!
//! Stands on `cell_types` (values). Used by what evaluates formulas, or compares values as they do.
//!
//! Promises: each operator gives exactly what its table in specs/ says for every two values, and
//! every error of that table where it stands there. Only `add` takes memory, for what it joins;
//! comparing and joining are linear, and no operand is copied to be read. Division rounds down, and
//! its law holds for all whole numbers. No operator gives an error as a value or raises the
//! error of a circular cell.
//! Not promised: that `add` finds memory.
//! Read first: numbers.rt, then equality.rt.
#![tactic(auto)]

mod division;
mod equality;
mod fault;
mod joining;
mod laws;
mod membership;
mod numbers;
mod order;
mod truthfulness;

pub use division::division_law;
pub use equality::{equal, equality_law, item_equals, same};
pub use fault::OpFault;
pub use joining::{MAX_JOINED_ITEMS, add};
pub use laws::raising_law;
pub use membership::contains;
pub use numbers::{floor_div, modulo, mul, negate, sub};
pub use order::less;
pub use truthfulness::truth;
