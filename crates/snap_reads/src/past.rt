//! Points of histories.
use std::collections::LinkedList;

/// A history from its opening. No value of it is made.
pub struct Past<O, E> {
    pub opening: O,
    pub entries: LinkedList<E>,
}

/// How many entries a history had whose shot was published.
#[derive(Clone, Copy)]
pub struct Mark {
    pub entries: u64,
}
