//! What stream lines that tell the same changes share.
ghost use Rattle.std.specs.Prelude.{◌≡◌, List, IfOk};
ghost use Rattle.doc_model.specs.declared.view.ViewAction.{ViewAction};
ghost use Rattle.grist_json.specs.Lines.{stream_front, stream_text};

use crate::Line;
use crate::printed_actions::actions_value;
use doc_model::ViewActionList;
use serde_json::Value;
use std::alloc::{AllocError, Global};
use std::marker::Model;

/// The front of the stream lines that tell some changes, up to their numbers, so that it is printed
/// once for many sessions. It is seen as its bytes.
#[derive(Drop)]
pub struct StreamFront {
    text: String,
}

impl Model for StreamFront {
    ghost use Rattle.std.specs.Prelude.{List, ℕ, string_bytes};

    ghost Value = { List ℕ };

    ghost view = { λ f. string_bytes f.text };
}

impl StreamFront {
    /// The front of the lines that tell these changes.
    pub fn of(alloc: Global, actions: &ViewActionList) -> Result<Self, AllocError>
        ensures { IfOk result (λ f. f ≡ stream_front actions.now) }
    {
        let actions = actions_value(alloc, actions.as_slice())?.to_string(alloc)?;
        let mut text = String::from_str(alloc, "{\"actions\":")?;
        text.push_str(actions.as_str())?;
        text.push_str(",\"seq\":")?;
        Ok(StreamFront { text })
    }

    /// The stream line that tells the changes under the session's own count.
    ///
    /// Source: docs/PROTOCOL.md, "stream lines".
    pub fn line(&self, alloc: Global, number: u64) -> Result<Line, AllocError>
        ensures { IfOk result (λ l. (actions : List ViewAction)
            → self.now ≡ stream_front actions → l ≡ stream_text number actions) }
    {
        let number = Value::from(number).to_string(alloc)?;
        let mut text = String::with_capacity(alloc, self.text.len().saturating_add(24))?;
        text.push_str(self.text.as_str())?;
        text.push_str(number.as_str())?;
        text.push_str("}")?;
        Ok(Line::new(text))
    }
}
