//! Records in a file of SQLite: the edge to the disk, which tells no record.
ghost use Rattle.std.specs.Prelude.{◌≡◌, ◌≤◌, None};
ghost use Rattle.io_edges.specs.Causes.{Rose};

use crate::new_file::begin_small;
use crate::records::{Db, NotAdded, add, closed, open, read_from, see_to_records, take_back};
use doc_keeper::{KeepFault, Keeper};

// A record that was refused and may be in the file, and its number.
#[derive(Drop)]
struct Doubt {
    number: u64,
    bytes: Vec<u8>,
}

/// A keeper over a file, which is opened or made by `ready`, and which nobody else can open from
/// then on. Each record is one transaction, and is on the disk once `keep` has answered.
///
/// Where the disk fails in `keep`, the record may have come to it all the same. Then the file is
/// opened anew and the record taken back, at once or before the next call that can.
#[derive(Drop)]
pub struct SqliteKeeper {
    host: HostRuntime,
    path: String,
    // Nothing before `ready`, and where that failed: then each other call fails.
    db: Option<Db>,
    // Records that were read ahead, the last one first, and the number of the next one.
    ahead: Vec<Vec<u8>>,
    next: u64,
    // Where there is one, the connection is of no use, and nothing is kept until it is settled.
    doubt: Option<Doubt>,
    faults: u64,
}

impl SqliteKeeper {
    /// A keeper over the file of that path, which it leaves alone until `ready`.
    ///
    /// Memory: none.
    pub fn new(rt: &HostRuntime, path: String) -> Self
        ensures { result.faults ≡ 0 }
    {
        SqliteKeeper {
            host: *rt,
            path,
            db: None,
            ahead: Vec::new(rt.alloc()),
            next: 0,
            doubt: None,
            faults: 0,
        }
    }

    // Opens the file, or makes it. The whole file is read.
    fn opened(&mut self) -> Result<(), KeepFault>
        ensures { self.new.faults ≡ self.old.faults }
    {
        if self.db.is_none() {
            begin_small(&self.host, self.path.as_str());
            self.db = Some(open(&self.host, self.path.as_str())?);
        }
        match &mut self.db {
            Some(db) => see_to_records(db),
            None => Err(KeepFault::Failed),
        }
    }

    /// Closes the file, where it was opened, with all records in it. Beside the file of a keeper
    /// that is dropped its log stays, and the next one to open the file reads both.
    ///
    /// Errors: `Failed` and `NoMemory`, which are not counted; the records are in one of the two,
    /// and a record that was refused may be behind them.
    pub fn close(self) -> Result<(), KeepFault> {
        let mut keeper = self;
        keeper.settle()?;
        match keeper.db.take() {
            Some(db) => closed(db),
            None => Ok(()),
        }
    }

    // Opens the file anew where a record is in doubt, and takes that one back.
    fn settle(&mut self) -> Result<(), KeepFault>
        ensures { self.new.faults ≡ self.old.faults }
    {
        let Some(doubt) = &self.doubt else {
            return Ok(());
        };
        // The old connection holds the file.
        self.db = None;
        let mut db = open(&self.host, self.path.as_str())?;
        take_back(&mut db, doubt.number, doubt.bytes.as_slice())?;
        self.db = Some(db);
        self.doubt = None;
        Ok(())
    }

    // Gives the connection up, with a record that may be in the file. Without memory to remember it
    // nothing is kept any more.
    fn give_up(&mut self, number: u64, bytes: &[u8])
        ensures { self.new.faults ≡ self.old.faults }
    {
        self.db = None;
        if let Ok(bytes) = Vec::from_slice(self.host.alloc(), bytes) {
            self.doubt = Some(Doubt { number, bytes });
            let _ = self.settle();
        }
    }

    fn added(&mut self, number: u64, bytes: &[u8]) -> Result<(), KeepFault>
        ensures { self.new.faults ≡ self.old.faults }
    {
        self.settle()?;
        let Some(db) = &mut self.db else {
            return Err(KeepFault::Failed);
        };
        match add(db, number, bytes) {
            Ok(()) => Ok(()),
            Err(NotAdded::Refused(fault)) => Err(fault),
            Err(NotAdded::Doubtful) => {
                self.give_up(number, bytes);
                Err(KeepFault::Failed)
            }
        }
    }

    // Counts a fault that is the outside's.
    fn counted(&mut self, fault: KeepFault) -> KeepFault
        ensures later { self.old.faults ≤ self.new.faults }
        ensures rose { result ≡ KeepFault.Failed → Rose self.old.faults self.new.faults }
        ensures stands { result ≡ KeepFault.NoMemory → self.new.faults ≡ self.old.faults }
    {
        if fault == KeepFault::Failed {
            self.faults = self.faults.saturating_add(1);
        }
        fault
    }

    // Reads ahead from that number on.
    fn fill(&mut self, number: u64) -> Result<(), KeepFault>
        ensures { self.new.faults ≡ self.old.faults }
    {
        let Some(db) = &mut self.db else {
            return Err(KeepFault::Failed);
        };
        self.ahead.clear();
        self.ahead = read_from(self.host.alloc(), db, number)?;
        self.ahead.reverse();
        self.next = number;
        Ok(())
    }

    fn take(&mut self, number: u64) -> Result<Option<Vec<u8>>, KeepFault>
        ensures { self.new.faults ≡ self.old.faults }
    {
        if self.ahead.is_empty() || self.next != number {
            self.fill(number)?;
        }
        self.next = number.saturating_add(1);
        Ok(self.ahead.pop())
    }
}

impl Keeper for SqliteKeeper {
    ghost records = { λ _. None };

    ghost failures = { λ k. k.faults };

    fn ready(&mut self) -> Result<(), KeepFault> {
        match self.opened() {
            Ok(()) => Ok(()),
            Err(fault) => Err(self.counted(fault)),
        }
    }

    fn load(&mut self, number: u64) -> Result<Option<Vec<u8>>, KeepFault> {
        match self.take(number) {
            Ok(found) => Ok(found),
            Err(fault) => Err(self.counted(fault)),
        }
    }

    fn keep(&mut self, number: u64, bytes: &[u8]) -> Result<(), KeepFault> {
        match self.added(number, bytes) {
            Ok(()) => Ok(()),
            Err(fault) => Err(self.counted(fault)),
        }
    }

    fn faults(&self) -> u64 {
        self.faults
    }
}
