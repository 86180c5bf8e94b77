//! The lines that are printed.
ghost use Rattle.std.specs.Prelude.{◌≡◌, true, IfOk, IsUtf8};
ghost use Rattle.serde_json.specs.Data.{Data};
ghost use Rattle.serde_json.specs.View.{view};
ghost use Rattle.cell_types.specs.NameRule.{is_name};
ghost use Rattle.grist_json.specs.Frames.{SpellsFrame, frame_data, frame_of};
ghost use Rattle.grist_json.specs.Json.{IsJson};
ghost use Rattle.grist_json.specs.Replies.{verdict_data};
ghost use Rattle.grist_json.specs.Lines.{IsPrinted, stream_data, reply_text, stream_text, frame_text};

use crate::Line;
use crate::json_parts::with_member;
use crate::printed_actions::actions_value;
use crate::printed_replies::verdict_value;
use cell_types::Name;
use doc_model::{Verdict, ViewActionList};
use serde_json::{Map, Value};
use std::alloc::{AllocError, Global};

/// Prints the reply that tells a verdict: the compact text of its JSON, keys sorted.
///
/// Source: docs/PROTOCOL.md, "replies".
pub fn write_reply(alloc: Global, verdict: &Verdict) -> Result<Line, AllocError>
    ensures text { IfOk result (λ l. l ≡ reply_text verdict.now) }
    ensures spells { IfOk result (λ l. IsJson l (verdict_data verdict.now)) }
    ensures printed { IfOk result (λ l. IsPrinted l (verdict_data verdict.now)) }
{
    let value = verdict_value(alloc, verdict)?;
    Ok(Line::new(value.to_string(alloc)?))
}

fn stream_value(alloc: Global, number: u64, actions: &ViewActionList) -> Result<Value, AllocError>
    ensures { IfOk result (λ v. view v ≡ stream_data number actions.now) }
{
    let actions = actions_value(alloc, actions.as_slice())?;
    let members = with_member(alloc, Map::new(alloc), "actions", actions)?;
    let number = Value::from(number);
    Ok(Value::Object(with_member(alloc, members, "seq", number)?))
}

/// Prints the stream line that tells the changes of a view, under the session's own count.
///
/// Source: docs/PROTOCOL.md, "stream lines".
pub fn write_stream(
    alloc: Global,
    number: u64,
    actions: &ViewActionList,
) -> Result<Line, AllocError>
    ensures text { IfOk result (λ l. l ≡ stream_text number actions.now) }
    ensures spells { IfOk result (λ l. IsJson l (stream_data number actions.now)) }
    ensures printed { IfOk result (λ l. IsPrinted l (stream_data number actions.now)) }
{
    let value = stream_value(alloc, number, actions)?;
    Ok(Line::new(value.to_string(alloc)?))
}

// The line of a session in its frame.
#[tactic(auto, unfolding(crate::specs::Lines::frame_text))]
fn framed(alloc: Global, session: &Name, line: &Line) -> Result<Line, AllocError>
    ensures text { IfOk result (λ l. l ≡ frame_text line.now session.now) }
    ensures utf8 { IfOk result (λ l. IsUtf8 l) }
{
    let name = String::from_str(alloc, session.as_str())?;
    let name = Value::String(name).to_string(alloc)?;
    let mut text = String::from_str(alloc, "{\"line\":")?;
    text.push_str(line.as_str())?;
    text.push_str(",\"session\":")?;
    text.push_str(name.as_str())?;
    text.push_str("}")?;
    Ok(Line::new(text))
}

/// Prints a line of a session in its frame. What it prints spells the frame that has the session
/// and what the line asks for, where the session has a name and the line is a printed one.
///
/// Source: docs/PROTOCOL.md, "frames".
pub fn write_frame(alloc: Global, session: &Name, line: &Line) -> Result<Line, AllocError>
    ensures text { IfOk result (λ l. l ≡ frame_text line.now session.now) }
    ensures spells { IfOk result (λ l.
        (d : Data) → IsPrinted line.now d → IsJson l (frame_data d session.now)) }
    ensures reads_back { IfOk result (λ l.
        (d : Data) → IsPrinted line.now d → is_name session.now ≡ true
        → SpellsFrame (frame_of session.now d) l) }
{
    framed(alloc, session, line)
}
