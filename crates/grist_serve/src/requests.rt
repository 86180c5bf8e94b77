//! What a line of a connection asks for.
ghost use Rattle.std.specs.Prelude.{◌≡◌, true, false, IfOk, IfSome};
ghost use Rattle.doc_model.specs.WellFormed.{asks_well_formed};
ghost use Rattle.grist_json.specs.Requests.{request_at};
ghost use Rattle.bundle_core.specs.Core.{is_gone};
ghost use Rattle.grist_serve.specs.Requests.{asked_by, entries_asked, line_entries};

use bundle_core::Event;
use cell_types::Name;
use doc_model::Request;
use grist_json::{ReadFault, read_request};
use io_edges::{is_blank, is_long};
use std::alloc::{AllocError, Global};

/// The size of a line that is too long.
const LONG_LINE_BYTES: u32 = 1_048_577;

// What a line asks for that is neither blank nor too long.
fn asked_by(alloc: Global, line: &[u8]) -> Result<Request, AllocError>
    ensures request { IfOk result (λ r. r ≡ asked_by (request_at line.now)) }
    ensures stays { IfOk result (λ r. is_gone r ≡ false) }
    ensures well_formed { IfOk result (λ r. asks_well_formed r ≡ true) }
{
    match read_request(alloc, line) {
        Ok(request) => Ok(request),
        Err(ReadFault::BadLine) => Ok(Request::Bad),
        Err(ReadFault::NoMemory) => Err(AllocError),
    }
}

/// What a line of a session asks for: nothing, where it is white space alone.
pub(crate) fn event_in(
    alloc: Global,
    session: &Name,
    line: &[u8],
) -> Result<Option<Event>, AllocError>
    ensures entries { IfOk result (λ o. entries_asked o ≡ line_entries session.now line.now) }
    ensures stays { IfOk result (λ o. IfSome o (λ e. is_gone e.request ≡ false)) }
    ensures well_formed { IfOk result (λ o. IfSome o (λ e. asks_well_formed e.request ≡ true)) }
{
    if is_long(line) {
        return Ok(Some(Event {
            session: session.clone()?,
            request: Request::TooLong,
            size: LONG_LINE_BYTES,
        }));
    }
    if is_blank(line) {
        return Ok(None);
    }
    let session = session.clone()?;
    let request = asked_by(alloc, line)?;
    Ok(Some(Event {
        session,
        request,
        size: line.len() as u32,
    }))
}
