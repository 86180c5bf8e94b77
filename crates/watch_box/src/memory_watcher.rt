//! Watchers in memory: one that fails at listed lines and where it has no room, and one that never
//! fails.
ghost use Rattle.std.specs.Prelude.{◌≡◌, ◌+◌, ◌^◌, ◌≤◌, Some, None, All, IfOk, vec_len, vec_capacity};
ghost use Rattle.watch_box.specs.SpareLines.{IsSpare};

use crate::watcher::Watcher;
use io_edges::Failed;
use std::alloc::{AllocError, Global};

/// A watcher in memory that fails at the listed calls, and where it has no room.
#[derive(Drop)]
pub struct MemWatcher {
    lines: Vec<Vec<u8>>,
    spare: Vec<Vec<u8>>,
    longest: usize,
    failing: Vec<u64>,
    calls: u64,
    faults: u64,
    ghost ready: { All (IsSpare longest) spare.items },
    ghost reserved: { vec_len lines + vec_len spare ≤ vec_capacity lines },
}

// Room for so many lines of that length.
fn spare_lines(alloc: Global, count: usize, longest: usize) -> Result<Vec<Vec<u8>>, AllocError>
    ensures ready { IfOk result (λ v. All (IsSpare longest) v.items) }
    ensures count { IfOk result (λ v. vec_len v ≡ count) }
{
    let mut spare = Vec::new(alloc);
    for _ in 0..count {
        spare.push(Vec::with_capacity(alloc, longest)?)?;
    }
    Ok(spare)
}

impl MemWatcher {
    ghost use Rattle.std.specs.Prelude.{◌≡◌, ◌↔◌, ◌+◌, ◌-◌, ◌^◌, ◌++◌, [], ◌∷◌, min, true, false, IfOk, map};
    ghost use Rattle.watch_box.specs.Watchers.{lines_of, watch_faults, watch_calls, failing_takes, space_of, longest_of, is_listed, HasRoom};

    /// Holds up to `count` lines of up to `longest` bytes, and fails at the calls whose numbers are
    /// listed.
    ///
    /// Units: calls are numbered from 0.
    /// Memory: takes its room here, and none later.
    pub fn new(
        alloc: Global,
        count: usize,
        longest: usize,
        failing: Vec<u64>,
    ) -> Result<Self, AllocError>
        ensures empty { IfOk result (λ w. lines_of w ≡ []) }
        ensures faults { IfOk result (λ w. watch_faults w ≡ 0) }
        ensures calls { IfOk result (λ w. watch_calls w ≡ 0) }
        ensures failing { IfOk result (λ w. failing_takes w ≡ failing.items) }
        ensures space { IfOk result (λ w. space_of w ≡ count) }
        ensures longest { IfOk result (λ w. longest_of w ≡ longest) }
    {
        Ok(MemWatcher {
            lines: Vec::with_capacity(alloc, count)?,
            spare: spare_lines(alloc, count, longest)?,
            longest,
            failing,
            calls: 0,
            faults: 0,
        })
    }

    /// The lines that were taken.
    pub fn lines(&self) -> &[Vec<u8>]
        ensures { map (λ v. v.items) result.now ≡ lines_of self.now }
    {
        &self.lines
    }

    // Counts a call, and says whether it is to fail.
    fn is_next_failing(&mut self) -> bool
        ensures listed { result ≡ is_listed self.old }
        ensures lines { self.new.lines ≡ self.old.lines }
        ensures spare { self.new.spare ≡ self.old.spare }
        ensures longest { self.new.longest ≡ self.old.longest }
        ensures failing { self.new.failing ≡ self.old.failing }
        ensures faults { self.new.faults ≡ self.old.faults }
        ensures calls { self.new.calls ≡ min (self.old.calls + 1) (2 ^ 64 - 1) }
    {
        let call = self.calls;
        self.calls = self.calls.saturating_add(1);
        self.failing.contains(&call)
    }

    // Puts the line into a spare one, if there is one and it has the room.
    fn try_keep(&mut self, line: &[u8]) -> bool
        ensures room { result ≡ true ↔ HasRoom self.old line.now }
        ensures kept { result ≡ true → lines_of self.new ≡ lines_of self.old ++ line.now ∷ [] }
        ensures same { result ≡ false → lines_of self.new ≡ lines_of self.old }
        ensures space { result ≡ true → space_of self.new + 1 ≡ space_of self.old }
        ensures longest { self.new.longest ≡ self.old.longest }
        ensures failing { self.new.failing ≡ self.old.failing }
        ensures faults { self.new.faults ≡ self.old.faults }
        ensures calls { self.new.calls ≡ self.old.calls }
    {
        if line.len() > self.longest {
            return false;
        }
        let Some(mut spare) = self.spare.pop() else {
            return false;
        };
        spare.extend_from_slice(line).is_ok() && self.lines.push(spare).is_ok()
    }
}

impl Watcher for MemWatcher {
    ghost use Rattle.std.specs.Prelude.{◌≡◌, ◌+◌, ◌-◌, ◌^◌, min, Some, OnOk};
    ghost use Rattle.io_edges.specs.Causes.{HasCause};
    ghost use Rattle.watch_box.specs.Taking.{Takes, RefusesFrom};
    ghost use Rattle.watch_box.specs.Watchers.{lines_of, watch_faults, watch_calls, failing_takes, space_of, longest_of, bound_of};

    ghost taken = { λ w. Some (lines_of w) };

    ghost refused_from = { λ w. Some (bound_of w) };

    ghost faults = { λ w. w.faults };

    fn take(&mut self, line: &[u8]) -> Result<(), Failed>
        ensures lines { Takes (Some (lines_of self.old)) (Some (lines_of self.new))
            line.now result }
        ensures refused { RefusesFrom (Some (bound_of self.old)) line.now result }
        ensures cause { HasCause (watch_faults self.old) (watch_faults self.new) result }
        ensures space { OnOk result (space_of self.new + 1 ≡ space_of self.old) }
        ensures longest { longest_of self.new ≡ longest_of self.old }
        ensures failing { failing_takes self.new ≡ failing_takes self.old }
        ensures calls { watch_calls self.new ≡ min (watch_calls self.old + 1) (2 ^ 64 - 1) }
    {
        if self.is_next_failing() || !self.try_keep(line) {
            self.faults = self.faults.saturating_add(1);
            return Err(Failed);
        }
        Ok(())
    }
}

/// A watcher that never fails, keeps nothing of what it is given and tells none of it.
#[derive(Drop)]
pub struct SureWatcher;

impl Watcher for SureWatcher {
    ghost taken = { λ _. None };

    ghost refused_from = { λ _. Some (2 ^ 64) };

    ghost faults = { λ _. 0 };

    fn take(&mut self, line: &[u8]) -> Result<(), Failed> {
        let _count = line.len();
        Ok(())
    }
}
