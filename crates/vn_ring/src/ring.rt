ghost use Rattle.std.specs.Prelude.{◌≡◌, ◌<◌, ◌≤◌, ◌↔◌, ◌++◌, ◌∷◌, [], IfErr, IfOk, IsNone, IsOk, OnErr, OnOk, drop, length, slice_get};

use bytes::Bytes;
use circular_buffer::HeapCircularBuffer;
use std::alloc::Global;
use std::marker::Model;
use vn_types::NoMemory;

/// A queue of frames, seen as the list of their octets with the most frames that it may hold.
#[derive(Drop)]
pub struct FrameRing {
    frames: HeapCircularBuffer<Bytes>,
}

impl Model for FrameRing {
    ghost use Rattle.std.specs.Prelude.{◌<◌, ◌≤◌, length};
    ghost use Rattle.vn_ring.specs.Queue.{Queue};

    ghost Value = { Queue };

    ghost view = { λ r. record { frames = r.frames.items; capacity = r.frames.capacity } };

    ghost invariant = { λ r. (0 < r.frames.capacity)
        × (length r.frames.items ≤ r.frames.capacity) };
}

impl FrameRing {
    /// An empty queue. No other call takes memory.
    pub fn new(alloc: Global, capacity: u64) -> Result<FrameRing, NoMemory>
        requires { 0 < capacity }
        ensures { IfOk result (λ queue. queue ≡ record { frames = []; capacity = capacity }) }
    {
        let frames = HeapCircularBuffer::with_capacity(alloc, capacity as usize)?;
        Ok(FrameRing { frames })
    }

    /// Puts a frame behind the others, or hands it back.
    pub fn try_put(&mut self, frame: Bytes) -> Result<(), Bytes>
        ensures room { IsOk result ↔ (length self.old.frames < self.old.capacity) }
        ensures put { OnOk result (self.new
            ≡ record self.old { frames = self.old.frames ++ frame ∷ [] }) }
        ensures handed_back { IfErr result (λ back. back ≡ frame) }
        ensures unchanged { OnErr result (self.new ≡ self.old) }
    {
        self.frames.try_push_back(frame)
    }

    /// Takes the first frame.
    pub fn take(&mut self) -> Option<Bytes>
        ensures empty { IsNone result ↔ (self.old.frames ≡ []) }
        ensures first { result ≡ slice_get self.old.frames 0 }
        ensures rest { self.new ≡ record self.old { frames = drop 1 self.old.frames } }
    {
        self.frames.pop_front()
    }

    /// Drops every frame.
    pub fn clear(&mut self)
        ensures { self.new ≡ record self.old { frames = [] } }
    {
        self.frames.clear();
    }

    /// The number of queued frames.
    pub fn len(&self) -> u64
        ensures len { result ≡ length self.now.frames }
        ensures within { result ≤ self.now.capacity }
        ensures capacity { 0 < self.now.capacity }
    {
        self.frames.len() as u64
    }
}
