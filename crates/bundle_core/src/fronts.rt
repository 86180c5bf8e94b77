//! The fronts of stream lines, printed once for all sessions that are told the same.

ghost use Rattle.std.specs.Prelude.{◌≡◌, List, map, IfOk};
ghost use Rattle.std.specs.Option.{option_copied};
ghost use Rattle.doc_model.specs.declared.view.ViewAction.{ViewAction};
ghost use Rattle.context_changes.specs.Known.{told_by};
ghost use Rattle.bundle_core.specs.Fronts.{front_of};

use acl_rules::Ctx;
use context_changes::known_place;
use doc_model::{User, ViewActionList};
use grist_json::StreamFront;
use std::alloc::{AllocError, Global};

// The front of the lines that tell these actions; none where there are none.
fn front_of(alloc: Global, actions: &ViewActionList) -> Result<Option<StreamFront>, AllocError>
    ensures { IfOk result (λ front. front ≡ front_of actions.now) }
{
    if actions.is_empty() {
        return Ok(None);
    }
    Ok(Some(StreamFront::of(alloc, actions)?))
}

/// The fronts of the lines that tell what is told beside each context.
pub(crate) fn fronts_of(
    alloc: Global,
    told: &[ViewActionList],
) -> Result<Vec<Option<StreamFront>>, AllocError>
    ensures { IfOk result (λ v. v.items ≡ map front_of told.now) }
{
    let mut fronts = Vec::with_capacity(alloc, told.len())?;
    for actions in told {
        fronts.push(front_of(alloc, actions)?)?;
    }
    Ok(fronts)
}

/// The front of the lines that tell a user what is told beside the user's context.
///
/// Memory: none.
pub(crate) fn front_to<'a>(
    contexts: &[Ctx],
    fronts: &'a [Option<StreamFront>],
    user: &User,
) -> Option<&'a StreamFront>
    ensures { (told : List (List ViewAction)) → fronts.now ≡ map front_of told
        → option_copied result ≡ front_of (told_by contexts.now told user.now) }
{
    let Some(place) = known_place(contexts, user) else {
        return None;
    };
    match fronts.get(place) {
        Some(front) => front.as_ref(),
        None => None,
    }
}
