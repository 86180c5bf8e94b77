//! Kept records: what each accepted bundle of a document was.
//!
//! Stands on `io_edges` (what it is that a count of faults rose). Used by `file_keeper`, which
//! keeps records in a file; for a core that keeps its bundles past the end of a run.
//!
//! Promises: a keeper is seen as a list of records, numbered from 0, and as a count of faults. A
//! call fails only where that count rose in it, and then the told records are as before; memory
//! that is wanting is a fault of its own. `MemKeeper` and `SureKeeper` tell their records, and
//! `MemKeeper` fails exactly at the calls that it was told to.
//! Not promised: that a record outlives the keeper that holds it in memory.
//! Read first: keeper.rt, then memory_keeper.rt.
#![tactic(auto)]

mod keeper;
mod memory_keeper;

pub use keeper::{KeepFault, Keeper};
pub use memory_keeper::{MemKeeper, SureKeeper};
