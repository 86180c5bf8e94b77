//! Requests, as lines spell them.
ghost use Rattle.std.specs.Prelude.{◌≡◌, true, IfOk, Err};
ghost use Rattle.serde_json.specs.View.{view};
ghost use Rattle.grist_json.specs.Requests.{Spells, IsRead, request_at};
ghost use Rattle.grist_json.specs.Reading.{open_from, word_from, bare_from, apply_from, undo_from, fetch_from, rename_from, request_from};
ghost use Rattle.doc_model.specs.declared.request.Request.{Request};
ghost use Rattle.doc_model.specs.WellFormed.{asks_well_formed};

use crate::json_text::json_of;
use crate::numbers::whole_of;
use action_lines::{Fields, read_actions};
use cell_types::CellText;
use doc_model::Request;
use serde_json::Value;
use std::alloc::{AllocError, Global};

/// Why no request was read.
#[derive(Clone, Copy)]
pub enum ReadFault {
    /// The line spells no request.
    BadLine,
    NoMemory,
}

#[tactic(auto, unfolding(crate::specs::Reading::open_from))]
fn open_of(alloc: Global, value: &Value) -> Result<Option<Request>, AllocError>
    ensures { IfOk result (λ o. o ≡ open_from (view value.now)) }
{
    let Some(mut fields) = Fields::of(value) else {
        return Ok(None);
    };
    let Some(method) = fields.take_text("method") else {
        return Ok(None);
    };
    let Some(token) = fields.take_text("token") else {
        return Ok(None);
    };
    if !fields.is_done() {
        return Ok(None);
    }
    if method != "openDoc" {
        return Ok(None);
    }
    Ok(Some(Request::Open {
        token: CellText::copy_of(alloc, token)?,
    }))
}

// The request of that word, where it is one that has nothing but its word.
fn word_of(word: &str) -> Option<Request>
    ensures { result ≡ word_from word.now }
{
    match word {
        "sync" => Some(Request::Sync),
        "closeDoc" => Some(Request::Close),
        _ => None,
    }
}

#[tactic(auto, unfolding(crate::specs::Reading::bare_from))]
fn bare_of(value: &Value) -> Option<Request>
    ensures { result ≡ bare_from (view value.now) }
{
    let Some(mut fields) = Fields::of(value) else {
        return None;
    };
    let Some(method) = fields.take_text("method") else {
        return None;
    };
    if !fields.is_done() {
        return None;
    }
    word_of(method)
}

#[tactic(auto, unfolding(crate::specs::Reading::apply_from))]
fn apply_of(alloc: Global, value: &Value) -> Result<Option<Request>, AllocError>
    ensures { IfOk result (λ o. o ≡ apply_from (view value.now)) }
{
    let Some(mut fields) = Fields::of(value) else {
        return Ok(None);
    };
    let Some(actions) = fields.take("actions") else {
        return Ok(None);
    };
    let Some(method) = fields.take_text("method") else {
        return Ok(None);
    };
    if !fields.is_done() {
        return Ok(None);
    }
    if method != "applyUserActions" {
        return Ok(None);
    }
    let Some(actions) = read_actions(alloc, actions)? else {
        return Ok(None);
    };
    Ok(Some(Request::Apply { actions }))
}

#[tactic(auto, unfolding(crate::specs::Reading::undo_from))]
fn undo_of(value: &Value) -> Option<Request>
    ensures { result ≡ undo_from (view value.now) }
{
    let mut fields = Fields::of(value)?;
    let bundle = fields.take("bundle")?;
    let method = fields.take_text("method")?;
    if !fields.is_done() {
        return None;
    }
    if method != "undo" {
        return None;
    }
    let bundle = whole_of(bundle)?;
    Some(Request::Undo { bundle })
}

#[tactic(auto, unfolding(crate::specs::Reading::fetch_from))]
fn fetch_of(alloc: Global, value: &Value) -> Result<Option<Request>, AllocError>
    ensures { IfOk result (λ o. o ≡ fetch_from (view value.now)) }
{
    let Some(mut fields) = Fields::of(value) else {
        return Ok(None);
    };
    let Some(method) = fields.take_text("method") else {
        return Ok(None);
    };
    let Some(table) = fields.take_text("table") else {
        return Ok(None);
    };
    if !fields.is_done() {
        return Ok(None);
    }
    if method != "fetchTable" {
        return Ok(None);
    }
    Ok(Some(Request::Fetch {
        table: CellText::copy_of(alloc, table)?,
    }))
}

#[tactic(auto, unfolding(crate::specs::Reading::rename_from))]
fn rename_of(alloc: Global, value: &Value) -> Result<Option<Request>, AllocError>
    ensures { IfOk result (λ o. o ≡ rename_from (view value.now)) }
{
    let Some(mut fields) = Fields::of(value) else {
        return Ok(None);
    };
    let Some(column) = fields.take_text("column") else {
        return Ok(None);
    };
    let Some(method) = fields.take_text("method") else {
        return Ok(None);
    };
    let Some(new) = fields.take_text("new") else {
        return Ok(None);
    };
    let Some(table) = fields.take_text("table") else {
        return Ok(None);
    };
    if !fields.is_done() {
        return Ok(None);
    }
    if method != "renameColumn" {
        return Ok(None);
    }
    Ok(Some(Request::Rename {
        table: CellText::copy_of(alloc, table)?,
        column: CellText::copy_of(alloc, column)?,
        new: CellText::copy_of(alloc, new)?,
    }))
}

// The request that the JSON spells. At most one of the forms fits.
#[tactic(auto, unfolding(crate::specs::Reading::request_from))]
pub(crate) fn request_of(alloc: Global, value: &Value) -> Result<Option<Request>, AllocError>
    ensures { IfOk result (λ o. o ≡ request_from (view value.now)) }
{
    if let Some(request) = open_of(alloc, value)? {
        return Ok(Some(request));
    }
    if let Some(request) = bare_of(value) {
        return Ok(Some(request));
    }
    if let Some(request) = apply_of(alloc, value)? {
        return Ok(Some(request));
    }
    if let Some(request) = undo_of(value) {
        return Ok(Some(request));
    }
    if let Some(request) = fetch_of(alloc, value)? {
        return Ok(Some(request));
    }
    rename_of(alloc, value)
}

#[tactic(auto, unfolding(crate::specs::Requests::request_at))]
fn request_in(alloc: Global, bytes: &[u8]) -> Result<Option<Request>, AllocError>
    ensures { IfOk result (λ o. o ≡ request_at bytes.now) }
{
    match json_of(alloc, bytes)? {
        Some(value) => request_of(alloc, &value),
        None => Ok(None),
    }
}

/// Reads the request that a line spells.
///
/// Errors: `BadLine` exactly where the line spells no request; `NoMemory`.
/// Source: docs/PROTOCOL.md, "requests".
pub fn read_request(alloc: Global, line: &[u8]) -> Result<Request, ReadFault>
    ensures found { IfOk result (λ r. Spells r line.now) }
    ensures none { result ≡ Err ReadFault.BadLine → (r : Request) → Spells r line.now → ⊥ }
    ensures exact { IsRead result (request_at line.now) }
    ensures well_formed { IfOk result (λ r. asks_well_formed r ≡ true) }
{
    match request_in(alloc, line) {
        Ok(Some(request)) => Ok(request),
        Ok(None) => Err(ReadFault::BadLine),
        Err(_) => Err(ReadFault::NoMemory),
    }
}
