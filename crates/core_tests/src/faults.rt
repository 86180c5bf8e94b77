//! Plan: whole runs of a replay whose outside fails, one call after the other. The input comes in
//! pieces of seven bytes and each read of it fails in turn, the one that brings the end among them:
//! what is given is what the lines ask for that came whole before (`each_read_fails_in_turn`). Of
//! an output that a run cannot gather whole, each write and the flush fail in turn: what is written
//! is a front of it, and how long a front follows from the 65,536 bytes that are gathered at most
//! (`each_write_fails_in_turn`). Of a script, a line behind `> ` comes, one behind `< ` is given.
//! The lines and the numbers are worked out by hand. A keeper that fails is in kept.rt.

ghost use Rattle.std.specs.Prelude.{None};
ghost use Rattle.io_edges.specs.Memory.{read_faults};
ghost use Rattle.io_edges.specs.Sides.{nothing_out};

use crate::runs::{lines_behind, no_watchers};
use doc_keeper::SureKeeper;
use grist_run::{Status, run_alone};
use io_edges::{Failed, MemSink, MemSource, Source};
use std::alloc::{AllocError, Global};
use std::test::Fail;
use std::thread::Threads;

// How many bytes a read gives at most.
const PIECE: usize = 7;

// A source that gives its bytes in small pieces.
#[derive(Drop)]
struct Pieces {
    source: MemSource,
}

impl Source for Pieces {
    ghost left = { λ _. None };

    ghost outgoing = { λ _. nothing_out };

    ghost faults = { λ p. read_faults p.source };

    fn read(&mut self, buf: &mut [u8]) -> Result<usize, Failed> {
        let count = buf.len().min(PIECE);
        self.source.read(&mut buf[..count])
    }
}

// How a run over this input ends, of which nothing is kept behind it.
fn end_of<R: Threads + Sync, S: Source>(
    rt: &R,
    alloc: Global,
    input: &mut S,
    out: &mut MemSink,
) -> Status {
    let keeper = SureKeeper::new(alloc);
    run_alone(rt, alloc, input, out, keeper, no_watchers(alloc)).status
}

const SCRIPT: &str = r#"> {"user":{"access":"editors","email":"e","id":2,"name":"Ed","token":"te"}}
> {"line":{"method":"openDoc","token":"te"},"session":"s2"}
< {"line":{"ok":{"actions":[["AddTable","Table1",[{"formula":"","id":"A","isFormula":false,"type":"Any"},{"formula":"","id":"B","isFormula":false,"type":"Any"},{"formula":"","id":"C","isFormula":false,"type":"Any"}]]]}},"session":"s2"}
> {"line":{"actions":[["AddRecord","Table1",null,{"A":1}]],"method":"applyUserActions"},"session":"s2"}
< {"line":{"actions":[["BulkAddRecord","Table1",[1],{"A":[1],"B":[null],"C":[null]}]],"seq":1},"session":"s2"}
< {"line":{"ok":{"bundle":1,"retValues":[1]}},"session":"s2"}
> no
< {"line":{"error":{"code":1,"name":"BadLine"}},"session":"_"}
> {"line":{"bundle":1,"method":"undo"},"session":"s2"}
< {"line":{"actions":[["BulkRemoveRecord","Table1",[1]]],"seq":2},"session":"s2"}
< {"line":{"ok":{"bundle":2}},"session":"s2"}
> {"line":{"method":"closeDoc"},"session":"s2"}
< {"line":{"ok":null},"session":"s2"}"#;

// How many reads bring the lines that come.
const READS: u64 = 48;

// What is given for the lines that come whole in so many bytes.
fn given_within(alloc: Global, bytes: usize) -> Result<Vec<u8>, AllocError> {
    let mut given = String::new(alloc);
    let mut left = bytes;
    let mut whole = true;
    for line in SCRIPT.lines() {
        if let Some(coming) = line.strip_prefix("> ") {
            whole = coming.len() < left;
            left = left.saturating_sub(coming.len()).saturating_sub(1);
        } else if whole {
            given.push_str(line.strip_prefix("< ").unwrap_or(""))?;
            given.push_str("\n")?;
        }
    }
    Ok(given.into_bytes())
}

// Whether a run whose read of this number fails ends so, and gives what the lines ask for that come
// whole in so many bytes.
fn ends_at_read<R: Threads + Sync>(
    rt: &R,
    alloc: Global,
    read: u64,
    bytes: usize,
    end: Status,
) -> Result<bool, AllocError> {
    let want = given_within(alloc, bytes)?;
    let lines = lines_behind(alloc, "> ", SCRIPT)?;
    let mut input = Pieces {
        source: MemSource::new(lines, vec![in alloc; read]?),
    };
    let mut out = MemSink::new(alloc, 65_536, Vec::new(alloc))?;
    let status = end_of(rt, alloc, &mut input, &mut out);
    Ok(status == end && out.bytes() == want.as_slice())
}

#[test]
fn each_read_fails_in_turn(rt: HostRuntime) -> Result<(), Fail> {
    let mut bytes = 0usize;
    for read in 0..=READS {
        assert!(rt; ends_at_read(&rt, rt.alloc(), read, bytes, Status::ReadFault)?);
        bytes = bytes.saturating_add(PIECE);
    }
    assert!(rt; ends_at_read(&rt, rt.alloc(), READS + 1, bytes, Status::Done)?);
    Ok(())
}

const NO: &str = "no\n";

const ANSWER: &str = "{\"line\":{\"error\":{\"code\":1,\"name\":\"BadLine\"}},\"session\":\"_\"}\n";

// A line 1,200 times.
fn many(alloc: Global, line: &str) -> Result<Vec<u8>, AllocError> {
    let mut text = String::new(alloc);
    for _time in 0..1_200 {
        text.push_str(line)?;
    }
    Ok(text.into_bytes())
}

// Whether a run of so many bad lines whose write or flush of this number fails ends so, and writes
// so many bytes of the answers.
fn ends_at_write<R: Threads + Sync>(
    rt: &R,
    alloc: Global,
    call: u64,
    bytes: usize,
    end: Status,
) -> Result<bool, AllocError> {
    let want = many(alloc, ANSWER)?;
    let mut input = MemSource::new(many(alloc, NO)?, Vec::new(alloc));
    let mut out = MemSink::new(alloc, 131_072, vec![in alloc; call]?)?;
    let status = end_of(rt, alloc, &mut input, &mut out);
    let written = out.bytes();
    Ok(status == end && written.len() == bytes && want.as_slice().starts_with(written))
}

// An answer is 60 bytes and a newline. 1,074 of them are gathered; then the next one finds no room,
// and goes out alone behind them; its newline and the other 125 go out at the end, and are flushed.
static WRITES: [(u64, usize, Status); 5] = [
    (0, 0, Status::WriteFault),
    (1, 65_514, Status::WriteFault),
    (2, 65_574, Status::WriteFault),
    (3, 73_200, Status::WriteFault),
    (4, 73_200, Status::Done),
];

#[test]
fn each_write_fails_in_turn(rt: HostRuntime) -> Result<(), Fail> {
    for &(call, bytes, end) in &WRITES {
        assert!(rt; ends_at_write(&rt, rt.alloc(), call, bytes, end)?);
    }
    Ok(())
}
