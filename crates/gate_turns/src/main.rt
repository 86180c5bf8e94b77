//! Turns of a gate, counted and timed: one, two and four threads step one counting machine.
//!
//! Stands on `session_gate`. Standard output has the entries that were made, the same whatever the
//! schedule. Given a number of turns, the program makes about that many with each number of
//! threads, and standard error then says how fast they were, in thousands a second, and against one
//! thread.
//!
//! Promises: none beyond those of the gate, whose entries are counted here.
//! Not promised: any time. What is printed on standard error is what one run measured.
#![tactic(auto)]

ghost use Rattle.std.specs.Prelude.{◌<◌, ◌≤◌};

mod tally;

use crate::tally::{Tally, turn_by};
use session_gate::{Gate, PassList};
use std::alloc::{AllocError, Global};
use std::sync::Wait;
use std::thread::Threads;
use std::time::{Clock, Instant};
use std::{env, io};

const FEW_TURNS: u64 = 2_000;

// What one number of threads did.
#[derive(Clone, Copy)]
struct Measured {
    entries: u64,
    micros: u128,
}

impl Measured {
    // Thousands of turns a second.
    fn rate(self) -> u128 {
        (self.entries as u128).saturating_mul(1_000) / self.micros.max(1)
    }

    fn percent_of(self, other: Measured) -> u128 {
        self.rate().saturating_mul(100) / other.rate().max(1)
    }
}

// One run with so many threads, each by a pass of its own.
fn measure<R: Threads + Wait + Clock + Sync>(
    rt: &R,
    alloc: Global,
    threads: u32,
    turns: u64,
) -> io::Result<Measured>
    requires { (0 < threads) × (threads ≤ 64) }
{
    let Ok((gate, passes)) = Gate::new(alloc, Tally::new(), threads) else {
        return Err(AllocError.into());
    };
    let mut passes = passes.into_vec();
    let start = Instant::now(rt)?;
    turn_by(rt, &gate, passes.as_mut_slice(), turns / threads as u64);
    let micros = start.elapsed(rt)?.as_micros();
    let Ok(machine) = gate.close(PassList::from(passes)) else {
        return Err(io::Error::other("a pass is missing"));
    };
    Ok(Measured {
        entries: machine.count(),
        micros,
    })
}

fn main(rt: HostRuntime) -> io::Result<()> {
    let asked = env::args(&rt)?.nth(1);
    let turns = match &asked {
        Some(word) => word.as_str().parse().unwrap_or(FEW_TURNS),
        None => FEW_TURNS,
    };
    // The first run warms the machine up, and is not shown.
    let mut alone = measure(&rt, rt.alloc(), 1, turns)?;
    for threads in [1, 2, 4] {
        let run = measure(&rt, rt.alloc(), threads, turns)?;
        if threads == 1 {
            alone = run;
        }
        println!(rt; "threads {threads}: {} entries", run.entries)?;
        if asked.is_some() {
            let rate = run.rate();
            let percent = run.percent_of(alone);
            eprintln!(rt; "threads {threads}: {rate} thousand turns a second, {percent} % of one")?;
        }
    }
    Ok(())
}
