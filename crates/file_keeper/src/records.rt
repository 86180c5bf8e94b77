//! The table of records in a file of SQLite, by statements.

use doc_keeper::KeepFault;
use sqlite::{Connection, Error, ErrorCode, File, FileStore, params};
use std::alloc::Global;

/// A connection to the file, which nobody else can open meanwhile.
pub(crate) type Db = Connection<FileStore<File>>;

const MAKE: &str = "CREATE TABLE record (number INTEGER PRIMARY KEY, bytes BLOB NOT NULL) STRICT";

// The text of what is called `record`, and how many other things there are.
const NAMED: &str = "SELECT type, sql FROM sqlite_schema WHERE name = 'record'";

const THINGS: &str = "SELECT count(*) FROM sqlite_schema";

// How many records there are, and the least and the greatest number.
const NUMBERS: &str = "SELECT count(*), min(number), max(number) FROM record";

const ADD: &str = "INSERT INTO record (number, bytes) VALUES (?1, ?2)";

const FROM: &str = "SELECT number, bytes FROM record WHERE number >= ?1 ORDER BY number LIMIT 256";

const COUNT: &str = "SELECT count(*) FROM record";

const BYTES: &str = "SELECT bytes FROM record WHERE number = ?1";

const REMOVE: &str = "DELETE FROM record WHERE number = ?1";

/// Of how many bytes records are read ahead, but for the last one.
const AHEAD_BYTES: usize = 1_048_576;

// Calls of the database stand in functions of their own, so that no proof carries their clauses.
fn fault_of(error: Error) -> KeepFault {
    match error {
        Error::SqliteFailure(ErrorCode::OutOfMemory) => KeepFault::NoMemory,
        _ => KeepFault::Failed,
    }
}

/// Opens the file, or makes it. The whole file is read.
pub(crate) fn open(rt: &HostRuntime, path: &str) -> Result<Db, KeepFault> {
    Connection::open(rt, path).map_err(fault_of)
}

fn make(db: &mut Db) -> Result<(), KeepFault> {
    db.execute(MAKE, &[]).map_err(fault_of)?;
    Ok(())
}

fn things(db: &mut Db) -> Result<i64, KeepFault> {
    let row = db.query_row(THINGS, &[]).map_err(fault_of)?;
    row.get(0).map_err(fault_of)
}

// Whether records are as this crate makes them; nothing where there is none of that name.
fn is_ours(db: &mut Db) -> Result<Option<bool>, KeepFault> {
    let mut rows = db.query(NAMED, &[]).map_err(fault_of)?;
    let Some(row) = rows.next().map_err(fault_of)? else {
        return Ok(None);
    };
    let kind: String = row.get(0).map_err(fault_of)?;
    let text: String = row.get(1).map_err(fault_of)?;
    Ok(Some(kind.as_str() == "table" && text.as_str() == MAKE))
}

// Whether the numbers are those from 0 on, none left out.
fn is_whole(db: &mut Db) -> Result<bool, KeepFault> {
    let row = db.query_row(NUMBERS, &[]).map_err(fault_of)?;
    let count: i64 = row.get(0).map_err(fault_of)?;
    if count == 0 {
        return Ok(true);
    }
    let least: i64 = row.get(1).map_err(fault_of)?;
    let greatest: i64 = row.get(2).map_err(fault_of)?;
    Ok(least == 0 && greatest == count.saturating_sub(1))
}

/// Sees to the table of records: it is made in a file that holds nothing, and else has to be there,
/// as this crate makes it and with no number left out. A gap would hide the records behind it,
/// until new ones had filled it.
pub(crate) fn see_to_records(db: &mut Db) -> Result<(), KeepFault> {
    match is_ours(db)? {
        Some(true) => {}
        Some(false) => return Err(KeepFault::Failed),
        None => {
            if things(db)? > 0 {
                return Err(KeepFault::Failed);
            }
            return make(db);
        }
    }
    if is_whole(db)? {
        Ok(())
    } else {
        Err(KeepFault::Failed)
    }
}

/// Why a record was not added.
#[derive(Clone, Copy)]
pub(crate) enum NotAdded {
    /// It is not in the file.
    Refused(KeepFault),
    /// It may be in the file, and nothing is to be had of the connection any more.
    Doubtful,
}

// A full disk and want of memory take the record back; an insertion that ran into anything else of
// the disk, as a sync that failed, ends the connection.
fn not_added(error: Error) -> NotAdded {
    match error {
        Error::SqliteFailure(ErrorCode::OutOfMemory) => NotAdded::Refused(KeepFault::NoMemory),
        Error::SqliteFailure(ErrorCode::SystemIoFailure | ErrorCode::Closed) => NotAdded::Doubtful,
        _ => NotAdded::Refused(KeepFault::Failed),
    }
}

/// Adds a record, which is on the disk behind this.
pub(crate) fn add(db: &mut Db, number: u64, bytes: &[u8]) -> Result<(), NotAdded> {
    let Ok(number) = i64::try_from(number) else {
        return Err(NotAdded::Refused(KeepFault::Failed));
    };
    db.execute(ADD, params![number, bytes]).map_err(not_added)?;
    Ok(())
}

fn count(db: &mut Db) -> Result<i64, KeepFault> {
    let row = db.query_row(COUNT, &[]).map_err(fault_of)?;
    row.get(0).map_err(fault_of)
}

fn bytes_at(db: &mut Db, number: i64) -> Result<Vec<u8>, KeepFault> {
    let row = db.query_row(BYTES, params![number]).map_err(fault_of)?;
    row.get(0).map_err(fault_of)
}

fn remove(db: &mut Db, number: i64) -> Result<(), KeepFault> {
    db.execute(REMOVE, params![number]).map_err(fault_of)?;
    Ok(())
}

/// Takes the record of that number back, which was refused, where it came to be in the file all the
/// same: those before it are then all that there are. Fails where there are fewer, or others: then
/// somebody else had the file meanwhile.
pub(crate) fn take_back(db: &mut Db, number: u64, bytes: &[u8]) -> Result<(), KeepFault> {
    see_to_records(db)?;
    let Ok(number) = i64::try_from(number) else {
        return Err(KeepFault::Failed);
    };
    let count = count(db)?;
    if count == number {
        Ok(())
    } else if count == number.saturating_add(1) && bytes_at(db, number)?.as_slice() == bytes {
        remove(db, number)
    } else {
        Err(KeepFault::Failed)
    }
}

/// Closes the file, with all records in it.
pub(crate) fn closed(db: Db) -> Result<(), KeepFault> {
    db.close().map_err(fault_of)
}

/// Reads records from that number on: those that follow each other, in their order, 256 or those of
/// a mebibyte at most.
pub(crate) fn read_from(
    alloc: Global,
    db: &mut Db,
    number: u64,
) -> Result<Vec<Vec<u8>>, KeepFault> {
    let mut found = Vec::new(alloc);
    let Ok(from) = i64::try_from(number) else {
        return Ok(found);
    };
    let mut next = from;
    let mut size = 0usize;
    let mut rows = db.query(FROM, params![from]).map_err(fault_of)?;
    for _ in 0..256u32 {
        let Some(row) = rows.next().map_err(fault_of)? else {
            return Ok(found);
        };
        let at: i64 = row.get(0).map_err(fault_of)?;
        if at != next {
            return Ok(found);
        }
        let bytes: Vec<u8> = row.get(1).map_err(fault_of)?;
        size = size.saturating_add(bytes.len());
        let Ok(()) = found.push(bytes) else {
            return Err(KeepFault::NoMemory);
        };
        if size >= AHEAD_BYTES {
            return Ok(found);
        }
        next = next.saturating_add(1);
    }
    Ok(found)
}
