//! The next line of the input, or why the run ends.
ghost use Rattle.std.specs.Prelude.{◌≡◌, ◌≤◌, ◌<◌, false, Ok, IfErr, IsErrOf};
ghost use Rattle.io_edges.specs.Causes.{Rose};
ghost use Rattle.io_edges.specs.Reading.{work_left};
ghost use Rattle.grist_run.specs.Reading.{ReadsNext};
ghost use Rattle.grist_run.specs.Words.{is_early};

use crate::status::Status;
use io_edges::{LineReader, NextLine, ReadEnd, Source};

/// Reads the next line, which the reader then lends.
pub(crate) fn read_next<S: Source>(
    reader: &mut LineReader,
    input: &mut S,
) -> Result<NextLine, Status>
    ensures reads { ReadsNext result reader.old reader.new (S.left input.old) (S.left input.new) }
    ensures late { IfErr result (λ s. is_early s ≡ false) }
    ensures falls { result ≡ Ok NextLine.Line → work_left reader.new < work_left reader.old }
    ensures later { S.faults input.old ≤ S.faults input.new }
    ensures fault { IsErrOf result Status.ReadFault
        → Rose (S.faults input.old) (S.faults input.new) }
{
    match reader.next_line(input) {
        Ok(next) => Ok(next),
        Err(ReadEnd::ReadFault) => Err(Status::ReadFault),
        Err(ReadEnd::TurnsSpent) => Err(Status::TurnsSpent),
        Err(ReadEnd::NoMemory) => Err(Status::NoMemory),
    }
}
