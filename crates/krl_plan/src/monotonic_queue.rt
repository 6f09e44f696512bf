//! The least of the candidates in a stretch that slides along a line toward zero.

ghost use Rattle.std.specs.Prelude.{◌≡◌, ◌<◌, ◌≤◌, ◌-◌, ◌⊎◌, ◌↔◌, [], length, take, drop};
ghost use Rattle.std.specs.Prelude.{IfSome, IsSome, OnOk};
ghost use Rattle.std.specs.List.{All, Contains};
ghost use Rattle.krl_plan.specs.declared.monotonic_queue.Candidate.{Candidate};
ghost use Rattle.krl_plan.specs.MonotonicQueue.{Forgets, IsLeastOf, AreOrdered, Pushes};

use std::alloc::{AllocError, Global};
use std::collections::VecDeque;

// A group of runs that is compared with others of its sort.
#[derive(Clone, Copy)]
pub(crate) struct Candidate {
    // Where the group ends on the line: counted in runs for a list, in serials for a bitmap.
    pub(crate) position: u64,
    // The value to minimize.
    pub(crate) value: u128,
    // How many of the set's runs are before the end of the group.
    pub(crate) end: usize,
}

// A candidate that is greater than a later one is never the least again, since it is forgotten
// sooner. So a candidate is kept only as long as no later one is below it, and the oldest is the
// least.
#[derive(Drop)]
pub(crate) struct MonotonicQueue {
    candidates: VecDeque<Candidate>,
    ghost ordered: { AreOrdered candidates.items },
}

impl MonotonicQueue {
    // An empty queue.
    pub(crate) fn new(alloc: Global) -> MonotonicQueue
        ensures { result.candidates.items ≡ [] }
    {
        MonotonicQueue {
            candidates: VecDeque::new(alloc),
        }
    }

    // Adds a candidate that is before all others.
    pub(crate) fn push(&mut self, candidate: Candidate) -> Result<(), AllocError>
        requires { All (λ other. candidate.position < other.position) self.old.candidates.items }
        ensures { OnOk result
            (Pushes candidate self.old.candidates.items self.new.candidates.items) }
    {
        push_to(&mut self.candidates, candidate)
    }

    // Forgets the candidates that are past the limit.
    pub(crate) fn forget_past(&mut self, limit: u128)
        ensures { Forgets limit self.old.candidates.items self.new.candidates.items }
    {
        drop_past(&mut self.candidates, limit);
    }

    // Forgets all candidates.
    pub(crate) fn clear(&mut self)
        ensures { self.new.candidates.items ≡ [] }
    {
        self.candidates.clear();
    }

    // The least of all candidates that were added and not forgotten; among equals, the farthest.
    pub(crate) fn least(&self) -> Option<Candidate>
        ensures some { IsSome result ↔ (0 < length self.now.candidates.items) }
        ensures least { IfSome result (IsLeastOf self.now.candidates.items) }
    {
        let oldest = self.candidates.front()?;
        Some(*oldest)
    }
}

// Adds a candidate before all others, and drops those that can no longer be the least.
fn push_to(candidates: &mut VecDeque<Candidate>, candidate: Candidate) -> Result<(), AllocError>
    requires ordered { AreOrdered candidates.old.items }
    requires before { All (λ other. candidate.position < other.position) candidates.old.items }
    ensures ordered { AreOrdered candidates.new.items }
    ensures pushed { OnOk result (Pushes candidate candidates.old.items candidates.new.items) }
{
    drop_greater(candidates, candidate.value);
    candidates.push_back(candidate)?;
    Ok(())
}

// Drops the newest candidates that are greater than a value.
fn drop_greater(candidates: &mut VecDeque<Candidate>, value: u128)
    requires ordered { AreOrdered candidates.old.items }
    ensures front { candidates.new.items ≡ take (length candidates.new.items) candidates.old.items }
    ensures within { All (λ candidate. candidate.value ≤ value) candidates.new.items }
    ensures dropped { (candidate : Candidate) → Contains candidates.old.items candidate
        → Contains candidates.new.items candidate ⊎ (value < candidate.value) }
{
    while let Some(newest) = candidates.back() {
        if newest.value <= value {
            return;
        }
        candidates.pop_back();
    }
}

// Drops the oldest candidates, which are past a limit.
fn drop_past(candidates: &mut VecDeque<Candidate>, limit: u128)
    requires ordered { AreOrdered candidates.old.items }
    ensures ordered { AreOrdered candidates.new.items }
    ensures forgotten { Forgets limit candidates.old.items candidates.new.items }
{
    while let Some(oldest) = candidates.front() {
        if oldest.position as u128 <= limit {
            return;
        }
        candidates.pop_front();
    }
}
