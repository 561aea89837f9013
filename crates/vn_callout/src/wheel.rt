ghost use Rattle.std.specs.Prelude.{◌≡◌, ℕ, ◌≤◌, ◌<◌, ◌^◌, false, List, [], None, All, Any, OnOk, OnErr, IfOk, IfSome, IfNone};
ghost use Rattle.vn_types.specs.declared.interface.HalfId.{HalfId};
ghost use Rattle.vn_types.specs.PerStack.{ChangesOnly};
ghost use Rattle.vn_types.specs.Interfaces.{half_id_eq};
ghost use Rattle.vn_rules.specs.declared.timer.TimersOf.{TimersOf};
ghost use Rattle.vn_rules.specs.Timers.{no_timers, after_arm, has_timer, without_timer, times_without, due, after_due, IsFirstDue, lesser, least};
ghost use Rattle.vn_callout.specs.Stacks.{of};

use crate::timers::Timers;
use std::alloc::Global;
use std::marker::Model;
use vn_rules::Timer;
use vn_types::{HalfId, NoMemory, PerStack, Sid};

/// The timers of all stacks, seen as a list of stacks by their numbers. Deadlines are in milliseconds.
/// Only `new` and `arm` take memory.
#[derive(Drop)]
pub struct Wheel {
    stacks: PerStack<Timers>,
}

impl Model for Wheel {
    ghost Value = { List (TimersOf HalfId) };

    ghost view = { λ a. a.stacks };
}

impl Wheel {
    /// A wheel on which no stack has a timer.
    pub fn new(alloc: Global) -> Result<Wheel, NoMemory>
        ensures none { IfOk result (λ w. (q : ℕ) → of w q ≡ no_timers) }
        ensures idle { IfOk result (λ w. least w ≡ None) }
    {
        Ok(Wheel {
            stacks: PerStack::new(alloc),
        })
    }

    /// Arms a timer of a stack, and answers its arm number, which counts what that stack armed before
    /// (callout_reset(9)).
    pub fn arm(&mut self, sid: Sid, deadline: u64, what: Timer) -> Result<u64, NoMemory>
        requires { (of self.old sid.0).armed < 2 ^ 63 }
        ensures number { IfOk result (λ n. n ≡ (of self.old sid.0).armed) }
        ensures unused { IfOk result (λ n. has_timer n (of self.old sid.0) ≡ false) }
        ensures armed { OnOk result (of self.new sid.0
            ≡ after_arm deadline what (of self.old sid.0)) }
        ensures kept { OnErr result (of self.new sid.0 ≡ of self.old sid.0) }
        ensures others { ChangesOnly sid.0 (of self.old) (of self.new) }
    {
        self.stacks.at_or_new(sid)?.arm(deadline, what)
    }

    /// Stops the timer of a stack with an arm number, and tells whether it stood (callout_stop(9)).
    pub fn stop(&mut self, sid: Sid, arm: u64) -> bool
        ensures stood { result ≡ has_timer arm (of self.old sid.0) }
        ensures stopped { of self.new sid.0 ≡ without_timer arm (of self.old sid.0) }
        ensures others { ChangesOnly sid.0 (of self.old) (of self.new) }
    {
        match self.stacks.at_mut(sid) {
            Some(timers) => timers.stop(arm),
            None => false,
        }
    }

    /// Stops the timers of a stack that are for ARP entries on a half.
    pub fn stop_of_interface(&mut self, sid: Sid, half: HalfId)
        ensures stopped { of self.new sid.0 ≡ times_without half_id_eq half (of self.old sid.0) }
        ensures others { ChangesOnly sid.0 (of self.old) (of self.new) }
    {
        if let Some(timers) = self.stacks.at_mut(sid) {
            timers.stop_of_interface(half);
        }
    }

    /// Stops all timers of a stack. Its arm numbers start at 0 again.
    pub fn stop_of_stack(&mut self, sid: Sid)
        ensures stopped { of self.new sid.0 ≡ no_timers }
        ensures others { ChangesOnly sid.0 (of self.old) (of self.new) }
    {
        if let Some(timers) = self.stacks.at_mut(sid) {
            timers.stop_all();
        }
    }

    /// Takes out the next timer of a stack, where its deadline has come.
    pub fn due(&mut self, sid: Sid, now: u64) -> Option<Timer>
        ensures due { result ≡ due now (of self.old sid.0) }
        ensures taken { of self.new sid.0 ≡ after_due now (of self.old sid.0) }
        ensures others { ChangesOnly sid.0 (of self.old) (of self.new) }

        // What `due` is: the first by deadline and then by arm number of those whose deadline has come.
        ensures first { IfSome result (IsFirstDue now (of self.old sid.0)) }
        ensures none { IfNone result (All (λ e. now < e.0.0) (of self.old sid.0).standing) }
    {
        self.stacks.at_mut(sid)?.due(now)
    }

    /// The least deadline of all stacks.
    pub fn next_deadline(&self) -> Option<u64>
        ensures least { result ≡ least self.now }

        // What `least` is, of the stacks at all numbers.
        ensures met { IfSome result (λ d. (q : ℕ) × Any (λ e. e.0.0 ≡ d) (of self.now q).standing) }
        ensures bound { IfSome result (λ d. (q : ℕ) →
            All (λ e. d ≤ e.0.0) (of self.now q).standing) }
        ensures none { IfNone result ((q : ℕ) → (of self.now q).standing ≡ []) }
    {
        least_of(self.stacks.rows())
    }
}

fn least_of(stacks: &[Timers]) -> Option<u64>
    ensures { result ≡ least stacks.now }
{
    let mut soonest = None;
    for timers in stacks {
        soonest = lesser(soonest, timers.soonest());
    }
    soonest
}

fn lesser(a: Option<u64>, b: Option<u64>) -> Option<u64>
    ensures { result ≡ lesser a b }
{
    match (a, b) {
        (None, _) => b,
        (_, None) => a,
        (Some(x), Some(y)) => Some(x.min(y)),
    }
}
