//! What a line asks for, and of which session.
ghost use Rattle.std.specs.Prelude.{◌≡◌, true, false, IfOk, IfSome};
ghost use Rattle.doc_model.specs.WellFormed.{asks_well_formed};
ghost use Rattle.bundle_core.specs.Core.{is_gone};
ghost use Rattle.grist_run.specs.LineRequests.{entries_requested};
ghost use Rattle.grist_run.specs.Script.{nobody, line_entries};

use cell_types::{CellText, Name};
use doc_model::Request;
use grist_json::{Frame, read_frame};
use io_edges::{is_blank, is_long};
use std::alloc::{AllocError, Global};

/// The size of a line that is too long.
const LONG_LINE_BYTES: u32 = 1_048_577;

/// A request of a session, with the size of its line.
#[derive(Drop)]
pub(crate) struct LineRequest {
    pub session: Name,
    pub request: Request,
    pub size: u32,
}

// The session of lines that are no frame.
fn nobody(alloc: Global) -> Result<Name, AllocError>
    ensures { IfOk result (λ n. n ≡ nobody) }
{
    Ok(Name::new(CellText::copy_of(alloc, "_")?))
}

/// What a line asks for: nothing, where it is white space alone.
pub(crate) fn request_in(alloc: Global, line: &[u8]) -> Result<Option<LineRequest>, AllocError>
    ensures entries { IfOk result (λ o. entries_requested o ≡ line_entries line.now) }
    ensures stays { IfOk result (λ o. IfSome o (λ a. is_gone a.request ≡ false)) }
    ensures well_formed { IfOk result (λ o. IfSome o (λ a. asks_well_formed a.request ≡ true)) }
{
    if is_long(line) {
        return Ok(Some(LineRequest {
            session: nobody(alloc)?,
            request: Request::TooLong,
            size: LONG_LINE_BYTES,
        }));
    }
    if is_blank(line) {
        return Ok(None);
    }
    let size = line.len() as u32;
    match read_frame(alloc, line)? {
        Some(Frame { session, request }) => Ok(Some(LineRequest {
            session,
            request,
            size,
        })),
        None => Ok(Some(LineRequest {
            session: nobody(alloc)?,
            request: Request::Bad,
            size,
        })),
    }
}
