// The plan. `calls_of_two_threads_make_one_history`: two passes in two threads over a machine that
// keeps its events and counts its steps, so that a step taken twice, an entry lost or counted
// twice, and an older machine written over a newer one would each show. Expected, whatever the
// schedule: each pass's events in their order and no others; with a pass out, `close` asks for it.
// `numbers_of_one_pass_rise`: a caller that proves something of its own from the clauses of `call`.
ghost use Rattle.std.specs.Prelude.{◌≡◌, ◌≤◌, ◌+◌, ◌^◌, ◌<◌, ◌++◌, ◌∷◌, [], length, All, vec_len, IfOk};
ghost use Rattle.std.specs.Thread.{IsSync};
ghost use Rattle.session_gate.specs.Gate.{IsPassOf};

use session_gate::{Gate, Machine, NoGate, Pass, PassList, Unjoined};
use std::alloc::{AllocError, Global};
use std::sync::Wait;
use std::test::Fail;
use std::thread::{Threads, join};

const MOST: usize = 1 << 62;

// Keeps the events that it was given, and counts its steps.
#[derive(Drop)]
struct Counter {
    log: Vec<u32>,
    steps: u64,
    ghost few: { vec_len log ≤ 2 ^ 62 },
}

impl Machine for Counter {
    type Event = u32;

    type Entry = u32;

    type Out = u64;

    type Opening = ();

    ghost opening = { λ _. tt };

    ghost history = { λ c. c.log.items };

    ghost takes = { λ _. Unit {0} };

    ghost is_sure = { λ _ _ _. ⊥ };

    ghost answers = { λ _ before after event out.
        (out ≡ length before) × (after ≡ before ++ event ∷ []) };

    fn step<R: Threads + Wait + Sync>(&mut self, _rt: &R, event: u32) -> Result<u64, AllocError> {
        self.steps = self.steps.wrapping_add(1);
        if self.log.len() >= MOST {
            return Err(AllocError);
        }
        let number = self.log.len() as u64;
        self.log.push(event)?;
        Ok(number)
    }

    fn entries(&self) -> u64 {
        self.log.len() as u64
    }
}

fn new_counter(alloc: Global) -> Counter {
    Counter {
        log: Vec::new(alloc),
        steps: 0,
    }
}

// A gate round an empty counter.
fn open_gate(alloc: Global, passes: u32) -> Result<(Gate<Counter>, PassList<Counter>), AllocError>
    requires { (0 < passes) × (passes ≤ 64) }
    ensures own { IfOk result (λ r. All (IsPassOf r.0) r.1) }
    ensures count { IfOk result (λ r. length r.1 ≡ passes) }
{
    match Gate::new(alloc, new_counter(alloc), passes) {
        Ok(made) => Ok(made),
        Err(NoGate { machine: _ }) => Err(AllocError),
    }
}

// Calls once for each event, and hands the pass back.
fn call_each<R: Threads + Wait + Sync>(
    rt: &R,
    gate: &Gate<Counter>,
    mut pass: Pass<Counter>,
    events: &[u32],
) -> Result<Pass<Counter>, AllocError>
    requires { IsPassOf gate.now pass }
    ensures { IfOk result (IsPassOf gate.now) }
{
    for &event in events {
        gate.call(rt, &mut pass, event)?;
    }
    Ok(pass)
}

// The second answer is the larger, whoever calls between.
fn two_numbers<R: Threads + Wait + Sync>(
    rt: &R,
    gate: &Gate<Counter>,
    pass: &mut Pass<Counter>,
) -> Result<(u64, u64), AllocError>
    requires { IsPassOf gate.now pass.old }
    ensures { IfOk result (λ numbers. numbers.0 < numbers.1) }
{
    let first = gate.call(rt, pass, 7)?;
    let second = gate.call(rt, pass, 8)?;
    Ok((first, second))
}

// Whether the events of this parity stand in the log in this order, and no others of it.
fn has_in_order(log: &[u32], parity: u32, events: &[u32]) -> bool {
    log.iter().filter(|&&event| event % 2 == parity).eq(events)
}

// The machine after two threads have called at a gate round it, each for its own events.
fn called_by_two<R: Threads + Wait + Sync>(
    rt: &R,
    alloc: Global,
    even: &[u32],
    odd: &[u32],
) -> Result<Counter, Fail> {
    let (gate, passes) = open_gate(alloc, 2)?;
    let mut passes = passes.into_vec();
    let second = passes.pop().ok_or("two passes")?;
    let first = passes.pop().ok_or("two passes")?;
    let (first, second) = join(
        rt,
        ||
            requires { IsSync R.row × IsPassOf gate first }
        { call_each(rt, &gate, first, even) },
        ||
            requires { IsSync R.row × IsPassOf gate second }
        { call_each(rt, &gate, second, odd) },
    );
    passes.push(first?)?;
    let Err(
        Unjoined {
            gate,
            passes,
            made: 2,
        },
    ) = gate.close(PassList::from(passes))
    else {
        return Err("one pass of two is out".into());
    };
    let mut passes = passes.into_vec();
    passes.push(second?)?;
    gate.close(PassList::from(passes))
        .map_err(|_| "all passes are back".into())
}

#[test]
fn calls_of_two_threads_make_one_history(rt: HostRuntime) -> Result<(), Fail> {
    let mut even = Vec::new(rt.alloc());
    let mut odd = Vec::new(rt.alloc());
    for i in 0..200u32 {
        even.push(2 * i)?;
        odd.push(2 * i + 1)?;
    }
    let cases: [(&[u32], &[u32]); 2] = [(&[4, 2], &[3]), (even.as_slice(), odd.as_slice())];
    for (even, odd) in cases {
        let machine = called_by_two(&rt, rt.alloc(), even, odd)?;
        let log = machine.log.as_slice();
        assert_eq!(rt; log.len(), even.len().wrapping_add(odd.len()));
        assert_eq!(rt; machine.steps, log.len() as u64);
        assert!(rt; has_in_order(log, 0, even) && has_in_order(log, 1, odd));
    }
    Ok(())
}

#[test]
fn numbers_of_one_pass_rise(rt: HostRuntime) -> Result<(), Fail> {
    let (gate, passes) = open_gate(rt.alloc(), 1)?;
    assert!(rt; passes.len() == 1 && !passes.is_empty());
    let mut pass = passes.into_vec().pop().ok_or("one pass")?;
    assert_eq!(rt; two_numbers(&rt, &gate, &mut pass)?, (0, 1));
    Ok(())
}
