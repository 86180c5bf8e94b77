//! Peeks, as lines spell them.
ghost use Rattle.std.specs.Prelude.{◌≡◌, List, ℕ, IfNone, IfOk, IfSome};
ghost use Rattle.serde_json.specs.View.{view};
ghost use Rattle.doc_model.specs.declared.request.Request.{Request};
ghost use Rattle.grist_json.specs.Requests.{Spells};
ghost use Rattle.peek_lines.specs.Peeks.{SpellsPeek, peek_at, peek_from};

use action_lines::Fields;
use cell_types::CellText;
use grist_json::json_of;
use serde_json::Value;
use std::alloc::{AllocError, Global};

#[tactic(auto, unfolding(crate::specs::Peeks::peek_from))]
fn peek_of(alloc: Global, value: &Value) -> Result<Option<CellText>, AllocError>
    ensures { IfOk result (λ o. o ≡ peek_from (view value.now)) }
{
    let Some(mut fields) = Fields::of(value) else {
        return Ok(None);
    };
    let Some(method) = fields.take_text("method") else {
        return Ok(None);
    };
    let Some(table) = fields.take_text("table") else {
        return Ok(None);
    };
    if !fields.is_done() {
        return Ok(None);
    }
    if method != "peekTable" {
        return Ok(None);
    }
    Ok(Some(CellText::copy_of(alloc, table)?))
}

#[tactic(auto, unfolding(crate::specs::Peeks::peek_at))]
fn peek_in(alloc: Global, bytes: &[u8]) -> Result<Option<CellText>, AllocError>
    ensures { IfOk result (λ o. o ≡ peek_at bytes.now) }
{
    match json_of(alloc, bytes)? {
        Some(value) => peek_of(alloc, &value),
        None => Ok(None),
    }
}

/// Reads the table that a line asks to peek at, where it spells a peek.
///
/// Errors: out of memory.
/// Memory: the JSON of the line, and the text of the table.
pub fn read_peek(alloc: Global, line: &[u8]) -> Result<Option<CellText>, AllocError>
    ensures found { IfOk result (λ o. IfSome o (λ table. SpellsPeek table line.now)) }
    ensures none { IfOk result (λ o.
        IfNone o ((table : List ℕ) → SpellsPeek table line.now → ⊥)) }
    ensures exact { IfOk result (λ o. o ≡ peek_at line.now) }
    ensures no_request { IfOk result (λ o.
        IfSome o (λ _. (request : Request) → Spells request line.now → ⊥)) }
{
    peek_in(alloc, line)
}
