//! Plan: generated runs of few rows, each with the line that sums it up. The numbers were worked
//! out beside the project (`generates_by_the_script`).

use doc_keeper::SureKeeper;
use grist_run::{Status, generate};
use io_edges::MemSink;
use std::alloc::{AllocError, Global};
use std::test::Fail;
use std::thread::Threads;

static LINES: [(u32, &'static str); 4] = [
    (
        1,
        "{\"accepted\":4,\"denied\":0,\"entries\":8,\"lines\":7,\"rows\":1}\n",
    ),
    (
        2,
        "{\"accepted\":3,\"denied\":2,\"entries\":9,\"lines\":5,\"rows\":2}\n",
    ),
    (
        17,
        "{\"accepted\":13,\"denied\":7,\"entries\":24,\"lines\":25,\"rows\":17}\n",
    ),
    (
        50,
        "{\"accepted\":27,\"denied\":26,\"entries\":57,\"lines\":53,\"rows\":50}\n",
    ),
];

// Whether a generated run of so many rows ends well and writes that line.
fn sums_up<R: Threads + Sync>(
    rt: &R,
    alloc: Global,
    rows: u32,
    line: &str,
) -> Result<bool, AllocError> {
    if rows == 0 || rows > 20_000 {
        return Ok(false);
    }
    let mut out = MemSink::new(alloc, 65_536, vec![in alloc; 99]?)?;
    let outcome = generate(rt, alloc, rows, &mut out, SureKeeper::new(alloc));
    Ok(outcome.status == Status::Done && out.bytes() == line.as_bytes())
}

#[test]
fn generates_by_the_script(rt: HostRuntime) -> Result<(), Fail> {
    for (rows, line) in &LINES {
        let sums_up = sums_up(&rt, rt.alloc(), *rows, line);
        assert!(rt; matches!(sums_up, Ok(true)));
    }
    Ok(())
}
