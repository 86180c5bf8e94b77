//! Equality of what contracts see, as a test.

ghost use Rattle.std.specs.Prelude.{◌≡◌, ◌↔◌, IsTrue};

/// Things that can be told apart exactly where contracts can: two numbers of one kind are the same
/// where they are equal, two texts by their bytes, two lists item by item.
pub trait Same {
    /// Whether both are the same.
    ///
    /// Memory: none. Cost: linear in the smaller of the two.
    fn same_as(&self, other: &Self) -> bool
        ensures { IsTrue result ↔ (self.now ≡ other.now) };
}

impl Same for u32 {
    fn same_as(&self, other: &u32) -> bool {
        *self == *other
    }
}
