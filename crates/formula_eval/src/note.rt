//! What a run notes on its way.

use cell_types::{KeyList, Name, Read, Sequence};

/// What a run notes: each read, beside a read of rows that these are all taken, and of each lookup
/// the keys with their values, once they are all there. So what comes of a lookup can be told from
/// its keys alone, without the cells of its key columns and the rows that do not meet them.
#[derive(Drop)]
pub enum Note {
    Read(Read),
    All { table: Name },
    Met { table: Name, keys: KeyList },
}

/// Notes in the order in which a run made them; one may stand more than once.
pub type NoteList = Sequence<Note>;
