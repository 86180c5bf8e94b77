//! What the seats at a gate's table know. It stands in contracts and proofs alone: nothing is made.
use std::collections::LinkedList;

/// An entry of a gate's history, with the number of the pass that made it. What the machine brought
/// has no number.
pub struct Made<E> {
    pub by: Option<u64>,
    pub entry: E,
}

/// What a pass had seen that was handed back.
pub struct Told<E> {
    pub number: u64,
    pub seen: LinkedList<Made<E>>,
}

/// What a seat knows: its number, how many passes it may still make and how many it stands for,
/// whether it holds the turn, the machine's opening, the beginning of the history that it has seen,
/// and what passes had seen that were handed back to it.
pub struct Known<E, O> {
    pub number: u64,
    pub room: u64,
    pub parts: u64,
    pub turn: bool,
    pub opening: O,
    pub seen: LinkedList<Made<E>>,
    pub told: LinkedList<Told<E>>,
}
