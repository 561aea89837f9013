ghost use Rattle.std.specs.Prelude.{◌≡◌, ◌+◌, ◌++◌, ◌∷◌, [], Some, None, OnOk, OnErr, IfOk, drop, length, slice_get};
ghost use Rattle.vn_types.specs.Refusals.{IsRefusedBy};
ghost use Rattle.vn_rules.specs.declared.parts.TheConstants.{LOOPBACK_MAX};
ghost use Rattle.vn_loop.specs.Queues.{put_refusal, is_busy};

use bytes::Bytes;
use std::alloc::Global;
use std::marker::Model;
use vn_ring::FrameRing;
use vn_rules::LOOPBACK_MAX;
use vn_types::{Errno, NoMemory};

/// The datagrams that are on their way through the lo0 of one stack, oldest first.
#[derive(Drop)]
pub(crate) struct Queue {
    ring: FrameRing,
}

impl Model for Queue {
    ghost use Rattle.std.specs.Prelude.{◌≡◌, ℕ, List};
    ghost use Rattle.vn_rules.specs.declared.parts.TheConstants.{LOOPBACK_MAX};

    ghost Value = { List (List ℕ) };

    ghost view = { λ a. a.ring.frames };

    ghost invariant = { λ a. a.ring.capacity ≡ LOOPBACK_MAX };
}

impl Queue {
    pub(crate) fn new(alloc: Global) -> Result<Queue, NoMemory>
        ensures { IfOk result (λ queue. queue ≡ []) }
    {
        let ring = FrameRing::new(alloc, LOOPBACK_MAX as u64)?;
        Ok(Queue { ring })
    }

    pub(crate) fn put(&mut self, datagram: Bytes) -> Result<(), Errno>
        ensures answer { IsRefusedBy (put_refusal self.old) result }
        ensures queued { OnOk result (self.new ≡ self.old ++ datagram ∷ []) }
        ensures refused { OnErr result (self.new ≡ self.old) }
    {
        match self.ring.try_put(datagram) {
            Ok(()) => Ok(()),
            Err(_) => Err(Errno::NoBufs),
        }
    }

    pub(crate) fn take(&mut self) -> Option<Bytes>
        ensures first { result ≡ slice_get self.old 0 }
        ensures rest { self.new ≡ drop 1 self.old }
    {
        self.ring.take()
    }

    /// The number of datagrams for which there is room.
    pub(crate) fn free(&self) -> u64
        ensures { result + length self.now ≡ LOOPBACK_MAX }
    {
        LOOPBACK_MAX as u64 - self.ring.len()
    }

    /// Whether a datagram is queued.
    pub(crate) fn is_busy(&self) -> bool
        ensures { result ≡ is_busy (Some self.now) }
    {
        self.ring.len() > 0
    }
}
