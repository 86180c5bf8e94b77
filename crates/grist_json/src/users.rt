//! Users, as lines spell them.
ghost use Rattle.std.specs.Prelude.{◌≡◌, IfOk};
ghost use Rattle.serde_json.specs.View.{view};
ghost use Rattle.grist_json.specs.Users.{access_from, fits, is_access, user_fields, user_from, has_user, line_from, user_at, Tells};

use crate::json_text::json_of;
use action_lines::{Fields, id_of};
use cell_types::CellText;
use doc_model::User;
use serde_json::Value;
use std::alloc::{AllocError, Global};

/// How many bytes an email or a name has at most.
const MAX_FIELD_BYTES: usize = 256;

/// How many bytes a token has at most.
const MAX_TOKEN_BYTES: usize = 64;

/// What a line says of a user.
#[derive(Drop)]
pub enum UserLine {
    User(User),
    /// The line has the key `user`, and spells no user.
    Bad,
    /// The line is no object with the key `user`.
    Other,
}

fn is_access(text: &str) -> bool
    ensures { result ≡ is_access text.now }
{
    text == "owners" || text == "editors" || text == "viewers"
}

// The access that the JSON is, of which null is none.
fn access_of(alloc: Global, value: &Value) -> Result<Option<Option<CellText>>, AllocError>
    ensures { IfOk result (λ o. o ≡ access_from (view value.now)) }
{
    if value.is_null() {
        return Ok(Some(None));
    }
    match value.as_str() {
        Some(text) if is_access(text) => Ok(Some(Some(CellText::copy_of(alloc, text)?))),
        _ => Ok(None),
    }
}

// Sizes of a good user.
fn fits(email: &str, name: &str, token: &str) -> bool
    ensures { result ≡ fits email.now name.now token.now }
{
    email.len() <= MAX_FIELD_BYTES
        && name.len() <= MAX_FIELD_BYTES
        && !token.is_empty()
        && token.len() <= MAX_TOKEN_BYTES
}

#[tactic(auto, unfolding(crate::specs::Users::user_fields))]
fn fields_of(alloc: Global, value: &Value) -> Result<Option<User>, AllocError>
    ensures { IfOk result (λ o. o ≡ user_fields (view value.now)) }
{
    let Some(mut fields) = Fields::of(value) else {
        return Ok(None);
    };
    let Some(access) = fields.take("access") else {
        return Ok(None);
    };
    let Some(email) = fields.take_text("email") else {
        return Ok(None);
    };
    let Some(id) = fields.take("id") else {
        return Ok(None);
    };
    let Some(name) = fields.take_text("name") else {
        return Ok(None);
    };
    let Some(token) = fields.take_text("token") else {
        return Ok(None);
    };
    let Some(access) = access_of(alloc, access)? else {
        return Ok(None);
    };
    let Some(id) = id_of(id) else {
        return Ok(None);
    };
    if !fields.is_done() || !fits(email, name, token) {
        return Ok(None);
    }
    Ok(Some(User {
        token: CellText::copy_of(alloc, token)?,
        access,
        email: CellText::copy_of(alloc, email)?,
        name: CellText::copy_of(alloc, name)?,
        id,
    }))
}

#[tactic(auto, unfolding(crate::specs::Users::user_from))]
fn user_of(alloc: Global, value: &Value) -> Result<Option<User>, AllocError>
    ensures { IfOk result (λ o. o ≡ user_from (view value.now)) }
{
    let Some(mut fields) = Fields::of(value) else {
        return Ok(None);
    };
    let Some(user) = fields.take("user") else {
        return Ok(None);
    };
    if !fields.is_done() {
        return Ok(None);
    }
    fields_of(alloc, user)
}

fn has_user(value: &Value) -> bool
    ensures { result ≡ has_user (view value.now) }
{
    value.get("user").is_some()
}

fn line_of(alloc: Global, value: &Value) -> Result<UserLine, AllocError>
    ensures { IfOk result (λ l. l ≡ line_from (view value.now)) }
{
    if !has_user(value) {
        return Ok(UserLine::Other);
    }
    match user_of(alloc, value)? {
        Some(user) => Ok(UserLine::User(user)),
        None => Ok(UserLine::Bad),
    }
}

#[tactic(auto, unfolding(crate::specs::Users::user_at))]
fn user_in(alloc: Global, bytes: &[u8]) -> Result<UserLine, AllocError>
    ensures { IfOk result (λ l. l ≡ user_at bytes.now) }
{
    match json_of(alloc, bytes)? {
        Some(value) => line_of(alloc, &value),
        None => Ok(UserLine::Other),
    }
}

/// Reads what a line says of a user.
///
/// Source: docs/PROTOCOL.md, "users".
pub fn read_user(alloc: Global, line: &[u8]) -> Result<UserLine, AllocError>
    ensures tells { IfOk result (λ l. Tells l line.now) }
    ensures exact { IfOk result (λ l. l ≡ user_at line.now) }
{
    user_in(alloc, line)
}
