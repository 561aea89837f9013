ghost use Rattle.std.specs.Prelude.{◌≡◌, ◌<◌, ◌++◌, [], None, Some, drop, length, min, take};
ghost use Rattle.vn_io.specs.Answers.{IfCount};

use crate::outside::{Io, Sink, Source};
use std::marker::Model;

/// Octets in memory, given in pieces. No read fails.
#[derive(Drop)]
pub struct CalmSource {
    octets: Vec<u8>,
    at: usize,
    piece: usize,
}

impl Model for CalmSource {
    ghost use Rattle.std.specs.Prelude.{◌<◌, ◌≤◌, drop, length};
    ghost use Rattle.vn_io.specs.Memory.{Pieces};

    ghost Value = { Pieces };

    ghost view = { λ s. record { left = drop s.at s.octets.items; piece = s.piece } };

    ghost invariant = { λ s. (s.at ≤ length s.octets.items) × (0 < s.piece) };
}

impl CalmSource {
    /// A source of some octets, each read of which gives at most a piece.
    pub fn new(octets: Vec<u8>, piece: usize) -> CalmSource
        requires { 0 < piece }
        ensures { result ≡ record { left = octets.items; piece = piece } }
    {
        CalmSource {
            octets,
            at: 0,
            piece,
        }
    }
}

impl Source for CalmSource {
    ghost left = { λ s. Some s.left };

    ghost faults = { λ _. 0 };

    fn read(&mut self, into: &mut [u8]) -> Io
        ensures count { result
            ≡ Io.Count (min (min (length into.old) self.old.piece) (length self.old.left)) }
        ensures given { IfCount result (λ n.
            into.new ≡ take n self.old.left ++ drop n into.old) }
        ensures taken { IfCount result (λ n.
            self.new ≡ record self.old { left = drop n self.old.left }) }
        ensures end { IfCount result (λ n.
            n ≡ 0 → 0 < length into.new → self.new.left ≡ []) }
    {
        let rest = &self.octets[self.at..];
        let count = into.len().min(self.piece).min(rest.len());
        let (given, _) = rest.split_at(count);
        let (front, _) = into.split_at_mut(count);
        front.copy_from_slice(given);
        self.at += count;
        Io::Count(count)
    }

    fn faults(&self) -> u64 {
        0
    }
}

/// Takes each piece whole, and keeps nothing of it. No write fails.
#[derive(Drop)]
pub struct CalmSink;

impl CalmSink {
    /// A sink that keeps nothing.
    pub fn new() -> CalmSink {
        CalmSink
    }
}

impl Sink for CalmSink {
    ghost written = { λ _. None };

    ghost faults = { λ _. 0 };

    fn write(&mut self, from: &[u8]) -> Io
        ensures { result ≡ Io.Count (length from.now) }
    {
        Io::Count(from.len())
    }

    fn faults(&self) -> u64 {
        0
    }
}
