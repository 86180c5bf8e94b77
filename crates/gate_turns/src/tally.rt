//! A machine that counts its steps, and threads that step it.
ghost use Rattle.std.specs.Prelude.{◌≡◌, ◌≤◌, ◌^◌, ◌<◌, All, length};
ghost use Rattle.std.specs.Thread.{IsSync};
ghost use Rattle.session_gate.specs.Gate.{IsPassOf};

use session_gate::{Gate, Machine, Pass};
use std::alloc::AllocError;
use std::sync::Wait;
use std::thread;
use std::thread::Threads;

const MOST: u64 = 1 << 62;

/// Each step adds one entry that says nothing, so the count tells the whole history.
#[derive(Drop)]
pub struct Tally {
    count: u64,
    ghost few: { count ≤ 2 ^ 62 },
}

impl Tally {
    /// Nothing is counted yet.
    pub fn new() -> Tally
        ensures { result.count ≡ 0 }
    {
        Tally { count: 0 }
    }

    /// How many steps there were.
    pub fn count(&self) -> u64
        ensures { result ≡ self.now.count }
    {
        self.count
    }
}

impl Machine for Tally {
    type Event = ();

    type Entry = ();

    type Out = ();

    type Opening = ();

    ghost use Rattle.std.specs.Prelude.{◌≡◌, ◌++◌, ◌∷◌, [], replicate, ◌<◌, ◌^◌, length};

    ghost opening = { λ _. tt };

    ghost history = { λ t. replicate t.count tt };

    ghost takes = { λ _. Unit {0} };

    ghost is_sure = { λ _ before _. length before < 2 ^ 62 };

    ghost answers = { λ _ before after _ _. after ≡ before ++ tt ∷ [] };

    fn step<R: Threads + Wait + Sync>(&mut self, _rt: &R, _event: ()) -> Result<(), AllocError> {
        if self.count >= MOST {
            return Err(AllocError);
        }
        self.count += 1;
        Ok(())
    }

    fn entries(&self) -> u64 {
        self.count
    }
}

// Takes so many turns, or fewer where one is not answered.
fn turn_with<R: Threads + Wait + Sync>(
    rt: &R,
    gate: &Gate<Tally>,
    pass: &mut Pass<Tally>,
    turns: u64,
)
    requires { IsPassOf gate.now pass.old }
    ensures { IsPassOf gate.now pass.new }
{
    for _ in 0..turns {
        if gate.call(rt, pass, ()).is_err() {
            return;
        }
    }
}

/// Takes so many turns with each pass, each in a thread of its own.
pub fn turn_by<R: Threads + Wait + Sync>(
    rt: &R,
    gate: &Gate<Tally>,
    passes: &mut [Pass<Tally>],
    turns: u64,
)
    requires { All (IsPassOf gate.now) passes.old }
    ensures own { All (IsPassOf gate.now) passes.new }
    ensures count { length passes.new ≡ length passes.old }
{
    thread::for_each_mut(
        rt,
        passes,
        passes.len().max(1),
        &|_, pass: &mut Pass<Tally>|
            requires { IsSync R.row × IsPassOf gate.now pass.old }
            ensures { IsPassOf gate.entry.now pass.new }
        { turn_with(rt, gate, pass, turns) },
    );
}
