//! Frames: a line together with the name of its session.
ghost use Rattle.std.specs.Prelude.{◌≡◌, true, IfOk, IfSome, IfNone};
ghost use Rattle.serde_json.specs.View.{view};
ghost use Rattle.doc_model.specs.WellFormed.{asks_well_formed};
ghost use Rattle.grist_json.specs.Frames.{frame_from, frame_at, SpellsFrame};
ghost use Rattle.grist_json.specs.declared.frames.Frame.{Frame};

use crate::json_text::json_of;
use crate::requests::request_of;
use action_lines::Fields;
use cell_types::{CellText, Name};
use doc_model::Request;
use name_rules::is_name;
use serde_json::Value;
use std::alloc::{AllocError, Global};

/// A request of a session. It is `Bad` where the framed line spells no request.
#[derive(Drop)]
pub struct Frame {
    pub session: Name,
    pub request: Request,
}

#[tactic(auto, unfolding(crate::specs::Frames::frame_from))]
fn frame_of(alloc: Global, value: &Value) -> Result<Option<Frame>, AllocError>
    ensures { IfOk result (λ o. o ≡ frame_from (view value.now)) }
{
    let Some(mut fields) = Fields::of(value) else {
        return Ok(None);
    };
    let Some(line) = fields.take("line") else {
        return Ok(None);
    };
    let Some(session) = fields.take_text("session") else {
        return Ok(None);
    };
    if !fields.is_done() {
        return Ok(None);
    }
    if !is_name(session) {
        return Ok(None);
    }
    let session = Name::new(CellText::copy_of(alloc, session)?);
    let request = request_of(alloc, line)?.unwrap_or(Request::Bad);
    Ok(Some(Frame { session, request }))
}

#[tactic(auto, unfolding(crate::specs::Frames::frame_at))]
fn frame_in(alloc: Global, bytes: &[u8]) -> Result<Option<Frame>, AllocError>
    ensures { IfOk result (λ o. o ≡ frame_at bytes.now) }
{
    match json_of(alloc, bytes)? {
        Some(value) => frame_of(alloc, &value),
        None => Ok(None),
    }
}

/// Reads the frame that a line spells, or nothing where it spells none.
///
/// Source: docs/PROTOCOL.md, "frames".
pub fn read_frame(alloc: Global, line: &[u8]) -> Result<Option<Frame>, AllocError>
    ensures found { IfOk result (λ o. IfSome o (λ f. SpellsFrame f line.now)) }
    ensures none { IfOk result (λ o. IfNone o ((f : Frame) → SpellsFrame f line.now → ⊥)) }
    ensures exact { IfOk result (λ o. o ≡ frame_at line.now) }
    ensures well_formed { IfOk result (λ o. IfSome o (λ f. asks_well_formed f.request ≡ true)) }
{
    frame_in(alloc, line)
}
