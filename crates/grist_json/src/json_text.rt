//! Bytes as the text of JSON.
ghost use Rattle.std.specs.Prelude.{◌≡◌, IfOk, option_map};
ghost use Rattle.serde_json.specs.View.{view};
ghost use Rattle.grist_json.specs.Json.{json_at};

use serde_json::{Category, Value};
use std::alloc::{AllocError, Global};

/// The JSON that the bytes are the text of, or nothing where they are the text of none.
#[tactic(auto, unfolding(crate::specs::Json::json_at))]
pub fn json_of(alloc: Global, bytes: &[u8]) -> Result<Option<Value>, AllocError>
    ensures { IfOk result (λ o. option_map view o ≡ json_at bytes.now) }
{
    match Value::from_slice(alloc, bytes) {
        Ok(value) => Ok(Some(value)),
        Err(e) => {
            if let Category::Memory = e.classify() {
                return Err(AllocError);
            }
            Ok(None)
        }
    }
}
