//! The items of an array, taken one after the other.
ghost use Rattle.std.specs.Prelude.{◌≡◌, option_map};
ghost use Rattle.serde_json.specs.Find.{as_array};
ghost use Rattle.serde_json.specs.View.{view, items_view};
ghost use Rattle.action_lines.specs.Items.{first_item, item_text, is_last, only_item, two_items, only_text, text_beside};

use serde_json::Value;

/// The items that are left.
#[derive(Drop)]
pub struct Items<'a> {
    left: &'a [Value],
}

impl<'a> Items<'a> {
    /// The items of an array.
    pub fn of(value: &'a Value) -> Option<Items<'a>>
        ensures { option_map (λ i. items_view i.left.now) result ≡ as_array (view value.now) }
    {
        match value.as_array() {
            Some(list) => Some(Items {
                left: list.as_slice(),
            }),
            None => None,
        }
    }

    /// The next item.
    pub fn take(&mut self) -> Option<&'a Value>
        ensures { option_map (λ v. (view v.now, items_view self.new.left.now)) result
            ≡ first_item (items_view self.old.left.now) }
    {
        match self.left.split_first() {
            Some((value, left)) => {
                self.left = left;
                Some(value)
            }
            None => None,
        }
    }

    /// The next item, where it is a text.
    pub fn take_text(&mut self) -> Option<&'a str>
        ensures { option_map (λ t. (t.now, items_view self.new.left.now)) result
            ≡ item_text (items_view self.old.left.now) }
    {
        match self.take() {
            Some(value) => value.as_str(),
            None => None,
        }
    }

    /// The one item that is left, where there is one alone.
    pub fn only(mut self) -> Option<&'a Value>
        ensures { option_map (λ v. view v.now) result ≡ only_item (items_view self.entry.left.now) }
    {
        match self.take() {
            Some(value) if self.is_done() => Some(value),
            _ => None,
        }
    }

    /// The two items that are left, where there are two alone.
    pub fn two(mut self) -> Option<(&'a Value, &'a Value)>
        ensures { option_map (λ p. (view p.0.now, view p.1.now)) result
            ≡ two_items (items_view self.entry.left.now) }
    {
        match (self.take(), self.take()) {
            (Some(first), Some(second)) if self.is_done() => Some((first, second)),
            _ => None,
        }
    }

    /// The one item that is left, where there is one alone and it is a text.
    #[tactic(auto, unfolding(crate::specs::Items::only_text))]
    pub fn only_text(self) -> Option<&'a str>
        ensures { option_map (λ t. t.now) result ≡ only_text (items_view self.entry.left.now) }
    {
        match self.only() {
            Some(value) => value.as_str(),
            None => None,
        }
    }

    /// The two items that are left, where there are two alone and the first is a text.
    #[tactic(auto, unfolding(crate::specs::Items::text_beside))]
    pub fn text_beside(self) -> Option<(&'a str, &'a Value)>
        ensures { option_map (λ p. (p.0.now, view p.1.now)) result
            ≡ text_beside (items_view self.entry.left.now) }
    {
        match self.two() {
            Some((first, second)) => match first.as_str() {
                Some(text) => Some((text, second)),
                None => None,
            },
            None => None,
        }
    }

    /// No item is left.
    pub fn is_done(self) -> bool
        ensures { result ≡ is_last (items_view self.entry.left.now) }
    {
        self.left.first().is_none()
    }
}
