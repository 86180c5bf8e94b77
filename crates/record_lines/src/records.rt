//! Records, as bytes spell them.
ghost use Rattle.std.specs.Prelude.{◌≡◌, IfOk, IfSome, IfNone, option_map};
ghost use Rattle.serde_json.specs.View.{view};
ghost use Rattle.record_lines.specs.Records.{SpellsRecord, is_two, is_form, record_from, record_at};

use crate::dates::have_date;
use crate::recorded::read_list;
use action_lines::Fields;
use doc_model::{DocAction, DocActionList};
use grist_json::{json_of, whole_of};
use serde_json::Value;
use std::alloc::{AllocError, Global};

/// What a record says: the document actions of an accepted bundle, and its number.
///
/// Units: records are numbered from 0.
#[derive(Drop)]
pub struct Kept {
    pub number: u64,
    pub actions: DocActionList,
}

fn is_two(number: Option<u64>) -> bool
    ensures { result ≡ is_two number }
{
    match number {
        Some(number) => number == 2,
        None => false,
    }
}

// The version is that of the second form; in the first one there is none, and no date.
#[tactic(auto, unfolding(crate::specs::Records::is_form))]
fn is_form(version: Option<&Value>, actions: &[DocAction]) -> bool
    ensures { result ≡ is_form (option_map (λ v. view v.now) version.entry) actions.now }
{
    match version {
        Some(value) => is_two(whole_of(value)),
        None => !have_date(actions),
    }
}

#[tactic(auto, unfolding(crate::specs::Records::record_from, crate::specs::Records::formed_from))]
fn record_of(alloc: Global, value: &Value) -> Result<Option<Kept>, AllocError>
    ensures { IfOk result (λ o. o ≡ record_from (view value.now)) }
{
    let Some(mut fields) = Fields::of(value) else {
        return Ok(None);
    };
    let Some(list) = fields.take("actions") else {
        return Ok(None);
    };
    let Some(place) = fields.take("number") else {
        return Ok(None);
    };
    let Some(actions) = read_list::<DocAction>(alloc, list)? else {
        return Ok(None);
    };
    let Some(number) = whole_of(place) else {
        return Ok(None);
    };
    let version = fields.take_optional("version")?;
    if !fields.is_done() {
        return Ok(None);
    }
    if !is_form(version, actions.as_slice()) {
        return Ok(None);
    }
    Ok(Some(Kept {
        number,
        actions: DocActionList::from(actions),
    }))
}

#[tactic(auto, unfolding(crate::specs::Records::record_at))]
fn record_in(alloc: Global, bytes: &[u8]) -> Result<Option<Kept>, AllocError>
    ensures { IfOk result (λ o. o ≡ record_at bytes.now) }
{
    match json_of(alloc, bytes)? {
        Some(value) => record_of(alloc, &value),
        None => Ok(None),
    }
}

/// Reads the record that the bytes spell, in either form, or nothing where they spell none.
///
/// Source: docs/PROTOCOL.md, "records".
pub fn read_record(alloc: Global, bytes: &[u8]) -> Result<Option<Kept>, AllocError>
    ensures found { IfOk result (λ o. IfSome o (λ k. SpellsRecord k bytes.now)) }
    ensures none { IfOk result (λ o. IfNone o ((k : Kept) → SpellsRecord k bytes.now → ⊥)) }
    ensures exact { IfOk result (λ o. o ≡ record_at bytes.now) }
{
    record_in(alloc, bytes)
}
