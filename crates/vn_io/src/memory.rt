ghost use Rattle.std.specs.Prelude.{◌≡◌, ◌<◌, ◌≤◌, ◌↔◌, ◌++◌, [], Contains, Some, drop, length, min, take};
ghost use Rattle.vn_io.specs.Answers.{IfCount, OnFailed};
ghost use Rattle.vn_io.specs.Counts.{next_count};

use crate::calm::CalmSource;
use crate::failures::failed;
use crate::outside::{Io, Sink, Source};
use std::alloc::Global;
use std::marker::Model;

/// Octets in memory, given in pieces. The calls whose numbers are listed fail.
#[derive(Drop)]
pub struct MemSource {
    source: CalmSource,
    failing: Vec<u64>,
    calls: u64,
    faults: u64,
}

impl Model for MemSource {
    ghost use Rattle.vn_io.specs.Memory.{Supply};

    ghost Value = { Supply };

    ghost view = { λ s. record {
      left = s.source.left;
      piece = s.source.piece;
      failing = s.failing.items;
      calls = s.calls;
      faults = s.faults;
    } };
}

impl MemSource {
    /// A source of some octets, each read of which gives at most a piece. The first call has
    /// number 1. The count of calls stays at its last value.
    pub fn new(octets: Vec<u8>, piece: usize, failing: Vec<u64>) -> MemSource
        requires { 0 < piece }
        ensures { result ≡ record {
          left = octets.items;
          piece = piece;
          failing = failing.items;
          calls = 0;
          faults = 0;
        } }
    {
        MemSource {
            source: CalmSource::new(octets, piece),
            failing,
            calls: 0,
            faults: 0,
        }
    }
}

impl Source for MemSource {
    ghost left = { λ s. Some s.left };

    ghost faults = { λ s. s.faults };

    fn read(&mut self, into: &mut [u8]) -> Io
        ensures count { IfCount result (λ n.
            n ≡ min (min (length into.old) self.old.piece) (length self.old.left)) }
        ensures given { IfCount result (λ n.
            into.new ≡ take n self.old.left ++ drop n into.old) }
        ensures taken { IfCount result (λ n. self.new ≡ record self.old {
          left = drop n self.old.left;
          calls = next_count self.old.calls;
        }) }
        ensures end { IfCount result (λ n.
            n ≡ 0 → 0 < length into.new → self.new.left ≡ []) }

        ensures listed { (result ≡ Io.Failed)
            ↔ Contains self.old.failing (next_count self.old.calls) }
        ensures failed { OnFailed result (self.new ≡ record self.old {
          calls = next_count self.old.calls;
          faults = next_count self.old.faults;
        }) }
        ensures untouched { OnFailed result (into.new ≡ into.old) }
        ensures never_falls { self.old.faults ≤ self.new.faults }
    {
        self.calls = self.calls.saturating_add(1);
        if self.failing.contains(&self.calls) {
            return failed(&mut self.faults);
        }
        self.source.read(into)
    }

    fn faults(&self) -> u64 {
        self.faults
    }
}

/// Memory that takes octets in pieces. The calls whose numbers are listed fail, and so do those
/// that find no memory.
#[derive(Drop)]
pub struct MemSink {
    octets: Vec<u8>,
    piece: usize,
    failing: Vec<u64>,
    calls: u64,
    faults: u64,
}

impl Model for MemSink {
    ghost use Rattle.std.specs.Prelude.{◌<◌};
    ghost use Rattle.vn_io.specs.Memory.{Store};

    ghost Value = { Store };

    ghost view = { λ s. record {
      written = s.octets.items;
      piece = s.piece;
      failing = s.failing.items;
      calls = s.calls;
      faults = s.faults;
    } };

    ghost invariant = { λ s. 0 < s.piece };
}

impl MemSink {
    /// An empty sink, each write of which takes at most a piece. The first call has number 1. The
    /// count of calls stays at its last value.
    pub fn new(alloc: Global, piece: usize, failing: Vec<u64>) -> MemSink
        requires { 0 < piece }
        ensures { result ≡ record {
          written = [];
          piece = piece;
          failing = failing.items;
          calls = 0;
          faults = 0;
        } }
    {
        MemSink {
            octets: Vec::new(alloc),
            piece,
            failing,
            calls: 0,
            faults: 0,
        }
    }

    /// All that was written.
    pub fn written(&self) -> &[u8]
        ensures { result.now ≡ self.now.written }
    {
        self.octets.as_slice()
    }
}

impl Sink for MemSink {
    ghost written = { λ s. Some s.written };

    ghost faults = { λ s. s.faults };

    fn write(&mut self, from: &[u8]) -> Io
        ensures count { IfCount result (λ n. n ≡ min (length from.now) self.old.piece) }
        ensures kept { IfCount result (λ n. self.new ≡ record self.old {
          written = self.old.written ++ take n from.now;
          calls = next_count self.old.calls;
        }) }
        ensures some { IfCount result (λ n. 0 < length from.now → 0 < n) }

        ensures listed { Contains self.old.failing (next_count self.old.calls)
            → result ≡ Io.Failed }
        // An empty piece wants no memory.
        ensures empty { result ≡ Io.Failed → length from.now ≡ 0
            → Contains self.old.failing (next_count self.old.calls) }
        ensures failed { OnFailed result (self.new ≡ record self.old {
          calls = next_count self.old.calls;
          faults = next_count self.old.faults;
        }) }
        ensures never_falls { self.old.faults ≤ self.new.faults }
    {
        self.calls = self.calls.saturating_add(1);
        let count = from.len().min(self.piece);
        if self.failing.contains(&self.calls)
            || self.octets.extend_from_slice(&from[..count]).is_err()
        {
            return failed(&mut self.faults);
        }
        Io::Count(count)
    }

    fn faults(&self) -> u64 {
        self.faults
    }
}
