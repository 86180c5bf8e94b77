//! Histories.

use crate::Request;
use cell_types::{Name, Sequence};

/// One request of a session in the history.
///
/// Units: the size is the byte count of the request's line without its newline, at most 1,048,577.
/// `kept` is false exactly where the keeper failed in that entry.
#[derive(Drop)]
pub struct Entry {
    pub session: Name,
    pub request: Request,
    pub size: u32,
    pub kept: bool,
}

/// A history: entries in the order in which they took effect.
pub type EntryList = Sequence<Entry>;
