//! The members of an object, taken one after the other in the order of their keys.
ghost use Rattle.std.specs.Prelude.{◌≡◌, IfOk, option_map};
ghost use Rattle.serde_json.specs.Find.{as_object};
ghost use Rattle.serde_json.specs.View.{view, members_view};
ghost use Rattle.action_lines.specs.Fields.{first_field, field, field_text, optional, is_done};

use serde_json::Value;
use std::alloc::AllocError;
use std::collections::btree_map::Iter;

/// The members that are left.
#[derive(Drop)]
pub struct Fields<'a> {
    left: Iter<'a, String, Value>,
}

impl<'a> Fields<'a> {
    /// The members of an object.
    pub fn of(value: &'a Value) -> Option<Fields<'a>>
        ensures { option_map (λ f. members_view f.left) result ≡ as_object (view value.now) }
    {
        match value.as_object() {
            Some(map) => Some(Fields { left: map.iter() }),
            None => None,
        }
    }

    /// The next member, whatever its key.
    pub fn next_field(&mut self) -> Option<(&'a str, &'a Value)>
        ensures { option_map (λ p. (p.0.now, view p.1.now, members_view self.new.left)) result
            ≡ first_field (members_view self.old.left) }
    {
        match self.left.next() {
            Some((name, value)) => Some((name.as_str(), value)),
            None => None,
        }
    }

    /// The value of the next member, where that has this key.
    pub fn take(&mut self, key: &str) -> Option<&'a Value>
        ensures { option_map (λ v. (view v.now, members_view self.new.left)) result
            ≡ field key.now (members_view self.old.left) }
    {
        let (name, value) = self.left.next()?;
        if name.as_str() == key {
            Some(value)
        } else {
            None
        }
    }

    /// The text of the next member, where that has this key and is a text.
    pub fn take_text(&mut self, key: &str) -> Option<&'a str>
        ensures { option_map (λ t. (t.now, members_view self.new.left)) result
            ≡ field_text key.now (members_view self.old.left) }
    {
        match self.take(key) {
            Some(value) => value.as_str(),
            None => None,
        }
    }

    /// The value of the next member, where that has this key. Else no member is taken.
    pub fn take_optional(&mut self, key: &str) -> Result<Option<&'a Value>, AllocError>
        ensures { IfOk result (λ o. (option_map (λ v. view v.now) o, members_view self.new.left)
            ≡ optional key.now (members_view self.old.left)) }
    {
        let mut ahead = Fields {
            left: self.left.clone()?,
        };
        match ahead.take(key) {
            Some(value) => {
                *self = ahead;
                Ok(Some(value))
            }
            None => Ok(None),
        }
    }

    /// No member is left.
    pub fn is_done(mut self) -> bool
        ensures { result ≡ is_done (members_view self.entry.left) }
    {
        self.left.next().is_none()
    }
}
