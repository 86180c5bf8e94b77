//! Plan: one link over a gate of one pass. Of a script, a line behind `> ` comes and one behind
//! `< ` is written; the last line comes without a newline. What a link is written
//! (`answers_each_line`): a line of white space is passed over, the last line is a line, and what
//! stands behind a closing is not answered; pieces of one byte give the same. Each read and each
//! write that fails ends it with that fault, and its session is gone (`faults_end_a_link`). The
//! lines are worked out by hand.

ghost use Rattle.std.specs.Prelude.{None, refl};
ghost use Rattle.io_edges.specs.Memory.{write_faults};

use crate::cores::{name_of, new_gate};
use doc_model::EntryList;
use grist_serve::serve_link;
use io_edges::{Failed, Link, MemLink, MemSink, MemSource, SessionEnd, Sink, Source};
use session_gate::PassList;
use std::alloc::{AllocError, Global};
use std::sync::Wait;
use std::test::Fail;
use std::thread::Threads;

// A link that gives one byte a read.
#[derive(Drop)]
struct Drip {
    bytes: Vec<u8>,
    at: usize,
    sink: MemSink,
}

impl Source for Drip {
    ghost left = { λ _. None };

    ghost outgoing = { λ l. record { written = None; faults = write_faults l.sink } };

    ghost faults = { λ _. 0 };

    fn read(&mut self, buf: &mut [u8]) -> Result<usize, Failed> {
        if buf.is_empty() || self.at >= self.bytes.len() {
            return Ok(0);
        }
        buf[0] = self.bytes[self.at];
        self.at += 1;
        Ok(1)
    }
}

impl Sink for Drip {
    ghost written = { λ _. None };

    ghost incoming = { λ _. record { left = None; faults = 0 } };

    ghost faults = { λ l. write_faults l.sink };

    fn write(&mut self, piece: &[u8]) -> Result<usize, Failed> {
        self.sink.write(piece)
    }

    fn flush(&mut self) -> Result<(), Failed> {
        self.sink.flush()
    }
}

impl Link for Drip {
    ghost goes_out = { λ _. refl };

    ghost comes_in = { λ _. refl };
}

/// A script, and how many entries it makes, that of the end among them.
#[derive(Clone, Copy)]
struct Case {
    pub script: &'static str,
    pub entries: usize,
}

static CASES: [Case; 3] = [
    Case {
        script: r#"> {"method":"sync"}
< {"error":{"code":3,"name":"NotOpen"}}
>   
> {"method":"openDoc","token":"te"}
< {"ok":{"actions":[["AddTable","Table1",[{"formula":"","id":"A","isFormula":false,"type":"Any"},{"formula":"","id":"B","isFormula":false,"type":"Any"},{"formula":"","id":"C","isFormula":false,"type":"Any"}]]]}}
> {}
< {"error":{"code":1,"name":"BadLine"}}
> {"method":"sync"}
< {"ok":null}"#,
        entries: 5,
    },
    Case {
        script: r#"> {"method":"openDoc","token":"te"}
< {"ok":{"actions":[["AddTable","Table1",[{"formula":"","id":"A","isFormula":false,"type":"Any"},{"formula":"","id":"B","isFormula":false,"type":"Any"},{"formula":"","id":"C","isFormula":false,"type":"Any"}]]]}}
> {"actions":[["AddRecord","Table1",null,{"A":1}]],"method":"applyUserActions"}
< {"actions":[["BulkAddRecord","Table1",[1],{"A":[1],"B":[null],"C":[null]}]],"seq":1}
< {"ok":{"bundle":1,"retValues":[1]}}
> {"method":"closeDoc"}
< {"ok":null}
> {"method":"sync"}"#,
        entries: 3,
    },
    Case {
        script: "",
        entries: 0,
    },
];

/// The lines of a script behind this mark.
fn lines_behind(alloc: Global, mark: &str, script: &str) -> Result<Vec<u8>, AllocError> {
    let mut text = String::new(alloc);
    for line in script.lines() {
        if let Some(rest) = line.strip_prefix(mark) {
            text.push_str(rest)?;
            text.push_str("\n")?;
        }
    }
    Ok(text.into_bytes())
}

/// What comes of a script, the last line without its newline.
fn coming(alloc: Global, script: &str) -> Result<Vec<u8>, AllocError> {
    let mut bytes = lines_behind(alloc, "> ", script)?;
    let _newline = bytes.pop();
    Ok(bytes)
}

// How a link ended, and the history that it left.
#[derive(Drop)]
struct Served {
    end: SessionEnd,
    history: EntryList,
}

// Serves one link over a new core.
fn serve_alone<R: Threads + Wait + Sync, L: Link>(
    rt: &R,
    alloc: Global,
    link: &mut L,
) -> Result<Served, AllocError> {
    let session = name_of(alloc, "s")?;
    let (gate, passes) = new_gate(rt, alloc, 1)?;
    let mut passes = passes.into_vec();
    let Some(mut pass) = passes.pop() else {
        return Err(AllocError);
    };
    let end = serve_link(rt, alloc, &gate, &mut pass, &session, link);
    let mut back = Vec::new(alloc);
    back.push(pass)?;
    match gate.close(PassList::from(back)) {
        Ok(core) => Ok(Served {
            end,
            history: core.finish().history,
        }),
        Err(_) => Err(AllocError),
    }
}

/// A link over these bytes, whose read and write of these numbers fail.
fn link_over(alloc: Global, bytes: Vec<u8>, read: u64, write: u64) -> Result<MemLink, AllocError> {
    let source = MemSource::new(bytes, vec![in alloc; read]?);
    let sink = MemSink::new(alloc, 65_536, vec![in alloc; write]?)?;
    Ok(MemLink::new(source, sink))
}

fn answers_whole<R: Threads + Wait + Sync>(
    rt: &R,
    alloc: Global,
    case: &Case,
) -> Result<bool, AllocError> {
    let want = lines_behind(alloc, "< ", case.script)?;
    let mut link = link_over(alloc, coming(alloc, case.script)?, 99, 99)?;
    let served = serve_alone(rt, alloc, &mut link)?;
    let is_given = link.bytes() == want.as_slice();
    Ok(is_given && served.end == SessionEnd::Closed && served.history.len() == case.entries)
}

fn answers_pieces<R: Threads + Wait + Sync>(
    rt: &R,
    alloc: Global,
    case: &Case,
) -> Result<bool, AllocError> {
    let want = lines_behind(alloc, "< ", case.script)?;
    let mut link = Drip {
        bytes: coming(alloc, case.script)?,
        at: 0,
        sink: MemSink::new(alloc, 65_536, Vec::new(alloc))?,
    };
    let served = serve_alone(rt, alloc, &mut link)?;
    Ok(served.end == SessionEnd::Closed && link.sink.bytes() == want.as_slice())
}

#[test]
fn answers_each_line(rt: HostRuntime) -> Result<(), Fail> {
    for case in &CASES {
        assert!(rt; answers_whole(&rt, rt.alloc(), case)?);
        assert!(rt; answers_pieces(&rt, rt.alloc(), case)?);
    }
    Ok(())
}

// Whether a link whose read and write of these numbers fail ends so, with so many entries, and was
// written a front of what it would be written.
fn ends_as<R: Threads + Wait + Sync>(
    rt: &R,
    alloc: Global,
    fails: (u64, u64),
    end: SessionEnd,
    entries: usize,
) -> Result<bool, AllocError> {
    let script = CASES[0].script;
    let want = lines_behind(alloc, "< ", script)?;
    let mut link = link_over(alloc, coming(alloc, script)?, fails.0, fails.1)?;
    let served = serve_alone(rt, alloc, &mut link)?;
    let is_front = want.as_slice().starts_with(link.bytes());
    Ok(is_front && served.end == end && served.history.len() == entries)
}

// Each write and flush of the four answers, and how many entries there are where it fails.
static WRITES: [(u64, usize); 8] = [
    (0, 1),
    (1, 1),
    (2, 3),
    (3, 3),
    (4, 4),
    (5, 4),
    (6, 5),
    (7, 5),
];

#[test]
fn faults_end_a_link(rt: HostRuntime) -> Result<(), Fail> {
    let alloc = rt.alloc();
    // The first read brings all lines, the second one their end; an answer is a write and a flush.
    assert!(rt; ends_as(&rt, alloc, (0, 99), SessionEnd::ReadFault, 0)?);
    assert!(rt; ends_as(&rt, alloc, (1, 99), SessionEnd::ReadFault, 4)?);
    for &(write, entries) in &WRITES {
        assert!(rt; ends_as(&rt, alloc, (99, write), SessionEnd::WriteFault, entries)?);
    }
    Ok(())
}
