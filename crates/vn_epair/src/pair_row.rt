ghost use Rattle.std.specs.Prelude.{◌≡◌, ◌++◌, ◌∷◌, ◌==◌, ◌&&◌, [], Some, OnOk, OnErr, IfOk, drop, slice_get};
ghost use Rattle.vn_types.specs.Interfaces.{other_side};
ghost use Rattle.vn_types.specs.Refusals.{IsRefusedBy};
ghost use Rattle.vn_rules.specs.Scenes.{is_empty};
ghost use Rattle.vn_epair.specs.Pairs.{coming, end_of, new_pair, send_refusal, with_coming, with_end};

use crate::half_row::HalfRow;
use bytes::Bytes;
use std::alloc::Global;
use std::marker::Model;
use vn_types::{Errno, Mac, NoMemory, Sid, Side};

/// The greatest unit.
pub const UNIT_MAX: u32 = 16_777_215;

/// A pair, with the number of its home.
#[derive(Drop)]
pub(crate) struct PairRow {
    home: Sid,
    unit: u32,
    a: HalfRow,
    b: HalfRow,
}

impl Model for PairRow {
    ghost use Rattle.vn_epair.specs.Halves.{Pair};

    ghost Value = { Pair };

    ghost view = { λ p. record { home = p.home.0; unit = p.unit; a = p.a; b = p.b } };
}

impl PairRow {
    pub(crate) fn new(alloc: Global, home: Sid, unit: u32) -> Result<PairRow, NoMemory>
        ensures { IfOk result (λ p. p ≡ new_pair home.0 unit) }
    {
        let a = HalfRow::new(alloc, home, unit, Side::A)?;
        let b = HalfRow::new(alloc, home, unit, Side::B)?;
        Ok(PairRow { home, unit, a, b })
    }

    pub(crate) fn home(&self) -> Sid
        ensures { result.0 ≡ self.now.home }
    {
        self.home
    }

    pub(crate) fn unit(&self) -> u32
        ensures { result ≡ self.now.unit }
    {
        self.unit
    }

    pub(crate) fn half(&self, side: Side) -> &HalfRow
        ensures { result.now ≡ end_of side self.now }
    {
        match side {
            Side::A => &self.a,
            Side::B => &self.b,
        }
    }

    pub(crate) fn set_place(&mut self, side: Side, sid: Sid)
        ensures { self.new ≡ with_end side (record (end_of side self.old) { at = sid.0 }) self.old }
    {
        match side {
            Side::A => self.a.set_place(sid),
            Side::B => self.b.set_place(sid),
        }
    }

    pub(crate) fn set_mac(&mut self, side: Side, mac: Mac)
        ensures { self.new ≡ with_end side (record (end_of side self.old) { mac = mac }) self.old }
    {
        match side {
            Side::A => self.a.set_mac(mac),
            Side::B => self.b.set_mac(mac),
        }
    }

    pub(crate) fn set_up(&mut self, side: Side, up: bool)
        ensures { self.new ≡ with_end side (record (end_of side self.old) { up = up }) self.old }
    {
        match side {
            Side::A => self.a.set_up(up),
            Side::B => self.b.set_up(up),
        }
    }

    /// The half of that side sends a frame.
    pub(crate) fn send(&mut self, from: Side, frame: Bytes) -> Result<(), Errno>
        ensures answer { IsRefusedBy (send_refusal (end_of from self.old)) result }
        ensures sent { OnOk result (self.new ≡ with_end from
            (record (end_of from self.old) { sent = (end_of from self.old).sent ++ frame ∷ [] }) self.old) }
        ensures refused { OnErr result (self.new ≡ self.old) }
        ensures half { self.new ≡ with_end from (end_of from self.new) self.old }
    {
        match from {
            Side::A => self.a.send(frame),
            Side::B => self.b.send(frame),
        }
    }

    /// Takes the oldest frame that comes to the half of that side: the other one sent it.
    pub(crate) fn take(&mut self, at: Side) -> Option<Bytes>
        ensures first { result ≡ slice_get (coming at self.old) 0 }
        ensures rest { self.new ≡ with_coming at (drop 1 (coming at self.old)) self.old }
    {
        match at {
            Side::A => self.b.take(),
            Side::B => self.a.take(),
        }
    }

    /// Drops the frames that come to the half of that side.
    pub(crate) fn clear(&mut self, at: Side)
        ensures { self.new ≡ with_coming at [] self.old }
    {
        match at {
            Side::A => self.b.clear(),
            Side::B => self.a.clear(),
        }
    }

    /// Whether no frame comes to the half of that side.
    pub(crate) fn is_quiet(&self, at: Side) -> bool
        ensures { result ≡ is_empty (coming at self.now) }
    {
        match at {
            Side::A => self.b.is_quiet(),
            Side::B => self.a.is_quiet(),
        }
    }
}
