//! The names of sessions whose connections lanes serve.

ghost use Rattle.std.specs.Prelude.{◌≡◌, IfOk};
ghost use Rattle.grist_lanes.specs.SessionNames.{session_name};

use cell_types::{CellText, Name};
use std::alloc::{AllocError, Global};

/// The name of the session of a connection: `l2c7` for the seventh one of the second lane.
///
/// Units: lanes and connections are numbered from 1.
/// Errors: out of memory.
pub fn session_name(alloc: Global, lane: u32, connection: u64) -> Result<Name, AllocError>
    ensures { IfOk result (λ name. name ≡ session_name lane connection) }
{
    let text = format!(in alloc; "l{lane}c{connection}")?;
    let name = CellText::from_string(text)?;
    Ok(Name::new(name))
}
