//! Calls by their numbers, some of which are to fail.

/// The calls of an object in memory: how many there were, and which are to fail.
///
/// Units: calls are numbered from 0.
#[derive(Drop)]
pub struct ListedCalls {
    failing: Vec<u64>,
    count: u64,
}

impl ListedCalls {
    ghost use Rattle.std.specs.Prelude.{◌≡◌, ◌↔◌, ◌+◌, ◌-◌, ◌^◌, min, IsTrue, Contains};
    ghost use Rattle.io_edges.specs.Memory.{calls_of, failing_of};

    /// No calls so far; those whose numbers are listed are to fail.
    pub(crate) fn new(failing: Vec<u64>) -> Self
        ensures failing { failing_of result ≡ failing.items }
        ensures calls { calls_of result ≡ 0 }
    {
        ListedCalls { failing, count: 0 }
    }

    /// Counts a call, and says whether it is to fail.
    pub(crate) fn is_next_failing(&mut self) -> bool
        ensures listed { IsTrue result ↔ Contains (failing_of self.old) (calls_of self.old) }
        ensures failing { failing_of self.new ≡ failing_of self.old }
        ensures calls { calls_of self.new ≡ min (calls_of self.old + 1) (2 ^ 64 - 1) }
    {
        let call = self.count;
        self.count = self.count.saturating_add(1);
        self.failing.contains(&call)
    }
}
