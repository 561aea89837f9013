ghost use Rattle.std.specs.Prelude.{◌≡◌, ◌+◌, ◌++◌, ◌∷◌, [], Some, None, false, IsSome, IsNone, OnOk, OnErr, drop, length, slice_get, unwrap_or};
ghost use Rattle.vn_types.specs.Refusals.{IsRefusedBy};
ghost use Rattle.vn_rules.specs.declared.parts.TheConstants.{LOOPBACK_MAX};
ghost use Rattle.vn_loop.specs.Queues.{put_refusal, is_busy};

use crate::queue::Queue;
use bytes::Bytes;
use std::alloc::Global;
use std::marker::Model;
use vn_types::{Empty, Errno, NoMemory};

/// The loopback of one stack: a queue or none.
#[derive(Drop)]
pub(crate) struct Loopback {
    queue: Option<Queue>,
}

impl Model for Loopback {
    ghost use Rattle.std.specs.Prelude.{Option};
    ghost use Rattle.vn_loop.specs.Queues.{Queue as Datagrams};

    ghost Value = { Option Datagrams };

    ghost view = { λ a. a.queue };
}

impl Empty for Loopback {
    ghost empty = { None };

    fn empty(_: Global) -> Loopback {
        Loopback { queue: None }
    }
}

impl Loopback {
    pub(crate) fn make(&mut self, alloc: Global) -> Result<(), NoMemory>
        requires { IsNone self.old }
        ensures idle { is_busy self.new ≡ false }
        ensures made { OnOk result (self.new ≡ Some []) }
        ensures no_memory { OnErr result (self.new ≡ self.old) }
    {
        self.queue = Some(Queue::new(alloc)?);
        Ok(())
    }

    pub(crate) fn remove(&mut self)
        ensures { self.new ≡ None }
    {
        self.queue = None;
    }

    pub(crate) fn put(&mut self, datagram: Bytes) -> Result<(), Errno>
        requires { IsSome self.old }
        ensures answer { IsRefusedBy (put_refusal (unwrap_or self.old [])) result }
        ensures queued { OnOk result (self.new ≡ Some (unwrap_or self.old [] ++ datagram ∷ [])) }
        ensures refused { OnErr result (self.new ≡ self.old) }
    {
        match &mut self.queue {
            Some(queue) => queue.put(datagram),
            None => unreachable!(),
        }
    }

    pub(crate) fn take(&mut self) -> Option<Bytes>
        requires { IsSome self.old }
        ensures first { result ≡ slice_get (unwrap_or self.old []) 0 }
        ensures rest { self.new ≡ Some (drop 1 (unwrap_or self.old [])) }
    {
        match &mut self.queue {
            Some(queue) => queue.take(),
            None => unreachable!(),
        }
    }

    pub(crate) fn free(&self) -> u64
        requires { IsSome self.now }
        ensures { result + length (unwrap_or self.now []) ≡ LOOPBACK_MAX }
    {
        match &self.queue {
            Some(queue) => queue.free(),
            None => unreachable!(),
        }
    }

    /// Whether a datagram is queued.
    pub(crate) fn is_busy(&self) -> bool
        ensures { result ≡ is_busy self.now }
    {
        match &self.queue {
            Some(queue) => queue.is_busy(),
            None => false,
        }
    }
}
