//! How a writer of shots begins.
ghost use Rattle.std.specs.Prelude.{◌≡◌, ◌<◌, false, IfOk};

use crate::shot::Shot;
use crate::writer::{ShotWriter, shown};
use left_right::writer::Writer;
use std::alloc::{AllocError, Global};
use std::sync::Wait;

/// A writer with two copies of one shot, with places for so many readers. Readers take the one,
/// and the other takes in the next operation.
///
/// Memory: some 256 bytes for each reader, and what is handed in.
pub fn open_shots<T: Shot<O>, O: Drop, R: Wait>(
    rt: &R,
    alloc: Global,
    first: T,
    second: T,
    readers: u32,
) -> Result<ShotWriter<T, O>, AllocError>
    requires readers { 0 < readers }
    requires alike { T.state first ≡ T.state second }
    requires stands { T.stands (T.state first) }
    ensures { IfOk result (λ writer. (writer.published ≡ T.past (T.state first))
        × (writer.last ≡ writer.published) × (writer.lost ≡ false)) }
{
    let made = Writer::new(alloc, first, second, readers as usize)?;
    let (writer, answer) = shown(made, rt);
    match answer {
        Ok(()) => Ok(ShotWriter::of(writer)),
        Err(fault) => {
            writer.take(rt);
            Err(fault)
        }
    }
}
