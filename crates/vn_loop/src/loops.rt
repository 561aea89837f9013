ghost use Rattle.std.specs.Prelude.{◌≡◌, ◌+◌, ◌++◌, ◌∷◌, ◌↔◌, ◌<◌, ◌≤◌, ◌^◌, if◌then◌else◌, ℕ, [], Some, None, IsSome, IsNone, OnOk, OnErr, IfOk, drop, find, length, slice_get};
ghost use Rattle.vn_types.specs.PerStack.{ChangesOnly};
ghost use Rattle.vn_types.specs.declared.interface.Sid.{Sid as StackNumber};
ghost use Rattle.vn_types.specs.Refusals.{IsRefusedBy};
ghost use Rattle.vn_rules.specs.declared.parts.TheConstants.{LOOPBACK_MAX};
ghost use Rattle.vn_loop.specs.Queues.{put_refusal, of, queue_of, is_busy};

use crate::loopback::Loopback;
use bytes::Bytes;
use std::alloc::Global;
use std::marker::Model;
use vn_types::{Errno, NoMemory, PerStack, Sid};

/// The loopback queues of all stacks, seen as a list of stacks by their numbers. Only `make` takes memory.
#[derive(Drop)]
pub struct Loops {
    alloc: Global,
    stacks: PerStack<Loopback>,
    /// The number of stacks in which a datagram is queued.
    busy: usize,
}

impl Model for Loops {
    ghost use Rattle.std.specs.Prelude.{◌≡◌, List, Option, count_by};
    ghost use Rattle.vn_loop.specs.Queues.{Queue, is_busy};

    ghost Value = { List (Option Queue) };

    ghost view = { λ a. a.stacks };

    ghost invariant = { λ a. a.busy ≡ count_by is_busy a.stacks };
}

impl Loops {
    /// A table in which no stack has a queue.
    pub fn new(alloc: Global) -> Result<Loops, NoMemory>
        ensures { IfOk result (λ loops. (q : ℕ) → of loops q ≡ None) }
    {
        Ok(Loops {
            alloc,
            stacks: PerStack::new(alloc),
            busy: 0,
        })
    }

    /// Gives a stack an empty queue.
    pub fn make(&mut self, sid: Sid) -> Result<(), NoMemory>
        requires { IsNone (of self.old sid.0) }
        ensures made { OnOk result (of self.new sid.0 ≡ Some []) }
        ensures no_memory { OnErr result (of self.new sid.0 ≡ None) }
        ensures others { ChangesOnly sid.0 (of self.old) (of self.new) }
    {
        let loopback = self.stacks.at_or_new(sid)?;
        loopback.make(self.alloc)
    }

    /// Takes the queue of a stack away, with the datagrams in it.
    pub fn remove(&mut self, sid: Sid)
        requires { IsSome (of self.old sid.0) }
        ensures removed { of self.new sid.0 ≡ None }
        ensures others { ChangesOnly sid.0 (of self.old) (of self.new) }
    {
        let loopback = self.stacks.at_mut(sid).unwrap();
        let was_busy = loopback.is_busy();
        loopback.remove();
        self.busy = counted(self.busy, was_busy, false);
    }

    /// Queues a datagram behind the others of a stack.
    pub fn put(&mut self, sid: Sid, datagram: Bytes) -> Result<(), Errno>
        requires { IsSome (of self.old sid.0) }
        ensures answer { IsRefusedBy (put_refusal (queue_of self.old sid.0)) result }
        ensures queued { OnOk result (of self.new sid.0
            ≡ Some (queue_of self.old sid.0 ++ datagram ∷ [])) }
        ensures refused { OnErr result (of self.new sid.0 ≡ of self.old sid.0) }
        ensures others { ChangesOnly sid.0 (of self.old) (of self.new) }
    {
        prove!(self.busy <= self.stacks.rows().len());
        let loopback = self.stacks.at_mut(sid).unwrap();
        let was_busy = loopback.is_busy();
        loopback.put(datagram)?;
        self.busy = counted(self.busy, was_busy, true);
        Ok(())
    }

    /// Takes the oldest datagram of a stack.
    pub fn take(&mut self, sid: Sid) -> Option<Bytes>
        requires { IsSome (of self.old sid.0) }
        ensures empty { IsNone result ↔ (queue_of self.old sid.0 ≡ []) }
        ensures first { result ≡ slice_get (queue_of self.old sid.0) 0 }
        ensures rest { of self.new sid.0 ≡ Some (drop 1 (queue_of self.old sid.0)) }
        ensures others { ChangesOnly sid.0 (of self.old) (of self.new) }
    {
        let loopback = self.stacks.at_mut(sid).unwrap();
        let was_busy = loopback.is_busy();
        let datagram = loopback.take();
        self.busy = counted(self.busy, was_busy, loopback.is_busy());
        datagram
    }

    /// The number of datagrams for which there is room in the queue of a stack.
    pub fn free(&self, sid: Sid) -> u64
        requires { IsSome (of self.now sid.0) }
        ensures { result + length (queue_of self.now sid.0) ≡ LOOPBACK_MAX }
    {
        self.stacks.at(sid).unwrap().free()
    }

    /// The first of the stacks in which a datagram is queued.
    pub fn next_queued(&self, order: &[Sid]) -> Option<Sid>
        ensures { result ≡ find (λ (sid : StackNumber). is_busy (of self.now sid.0)) order.now }
    {
        if self.busy == 0 {
            return None;
        }
        order.iter().find(|sid| self.is_busy(**sid)).copied()
    }

    fn is_busy(&self, sid: Sid) -> bool
        ensures { result ≡ is_busy (of self.now sid.0) }
    {
        match self.stacks.at(sid) {
            Some(loopback) => loopback.is_busy(),
            None => false,
        }
    }
}

/// The number of busy stacks, once one of them was busy or not, and is so or not.
fn counted(busy: usize, was_busy: bool, is_busy: bool) -> usize
    requires counted { (if was_busy then 1 else 0) ≤ busy }
    requires fits { busy + (if is_busy then 1 else 0) < 2 ^ 64 + (if was_busy then 1 else 0) }
    ensures { result + (if was_busy then 1 else 0) ≡ busy + (if is_busy then 1 else 0) }
{
    match (was_busy, is_busy) {
        (false, true) => busy + 1,
        (true, false) => busy - 1,
        _ => busy,
    }
}
