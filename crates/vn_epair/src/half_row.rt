ghost use Rattle.std.specs.Prelude.{◌≡◌, ◌++◌, ◌∷◌, [], OnOk, OnErr, IfOk, drop, slice_get};
ghost use Rattle.vn_types.specs.Refusals.{IsRefusedBy};
ghost use Rattle.vn_rules.specs.Macs.{first_mac};
ghost use Rattle.vn_epair.specs.Pairs.{new_end, send_refusal, is_quiet};

use bytes::Bytes;
use std::alloc::Global;
use std::marker::Model;
use vn_ring::FrameRing;
use vn_types::{Errno, Mac, NoMemory, Sid, Side};

/// The most frames that wait in a queue.
pub const FRAMES_MAX: usize = 128;

/// One half of a pair: the stack where it stands, its hardware address, and the frames that it sent and
/// that still wait, oldest first.
#[derive(Drop)]
pub(crate) struct HalfRow {
    at: Sid,
    mac: Mac,
    up: bool,
    sent: FrameRing,
}

impl Model for HalfRow {
    ghost use Rattle.std.specs.Prelude.{◌≡◌};
    ghost use Rattle.vn_epair.specs.declared.half_row.TheConstants.{FRAMES_MAX};
    ghost use Rattle.vn_epair.specs.Halves.{End};

    ghost Value = { End };

    ghost view = { λ a. record { at = a.at.0; mac = a.mac; up = a.up; sent = a.sent.frames } };

    ghost invariant = { λ a. a.sent.capacity ≡ FRAMES_MAX };
}

impl HalfRow {
    /// A half as it is made: at home, down, and nothing waits.
    pub(crate) fn new(alloc: Global, home: Sid, unit: u32, side: Side) -> Result<HalfRow, NoMemory>
        ensures { IfOk result (λ e. e ≡ new_end home.0 unit side) }
    {
        let sent = FrameRing::new(alloc, FRAMES_MAX as u64)?;
        Ok(HalfRow {
            at: home,
            mac: first_mac(unit, side),
            up: false,
            sent,
        })
    }

    pub(crate) fn place(&self) -> Sid
        ensures { result.0 ≡ self.now.at }
    {
        self.at
    }

    pub(crate) fn set_place(&mut self, sid: Sid)
        ensures { self.new ≡ record self.old { at = sid.0 } }
    {
        self.at = sid;
    }

    pub(crate) fn mac(&self) -> Mac
        ensures { result ≡ self.now.mac }
    {
        self.mac
    }

    pub(crate) fn set_mac(&mut self, mac: Mac)
        ensures { self.new ≡ record self.old { mac = mac } }
    {
        self.mac = mac;
    }

    pub(crate) fn is_up(&self) -> bool
        ensures { result ≡ self.now.up }
    {
        self.up
    }

    pub(crate) fn set_up(&mut self, up: bool)
        ensures { self.new ≡ record self.old { up = up } }
    {
        self.up = up;
    }

    pub(crate) fn send(&mut self, frame: Bytes) -> Result<(), Errno>
        ensures answer { IsRefusedBy (send_refusal self.old) result }
        ensures sent { OnOk result (self.new
            ≡ record self.old { sent = self.old.sent ++ frame ∷ [] }) }
        ensures refused { OnErr result (self.new ≡ self.old) }
    {
        if !self.up {
            return Err(Errno::NetDown);
        }
        match self.sent.try_put(frame) {
            Ok(()) => Ok(()),
            Err(_) => Err(Errno::NoBufs),
        }
    }

    /// Takes the oldest frame that it sent.
    pub(crate) fn take(&mut self) -> Option<Bytes>
        ensures first { result ≡ slice_get self.old.sent 0 }
        ensures rest { self.new ≡ record self.old { sent = drop 1 self.old.sent } }
    {
        self.sent.take()
    }

    pub(crate) fn clear(&mut self)
        ensures { self.new ≡ record self.old { sent = [] } }
    {
        self.sent.clear();
    }

    /// Whether nothing waits that it sent.
    pub(crate) fn is_quiet(&self) -> bool
        ensures { result ≡ is_quiet self.now }
    {
        self.sent.len() == 0
    }
}

/// The address of a half as it is made: 02:00, the unit in three octets, and 0a or 0b.
fn first_mac(unit: u32, side: Side) -> Mac
    ensures { result ≡ first_mac unit side }
{
    let [_, high, middle, low] = unit.to_be_bytes();
    let last = match side {
        Side::A => 0x0a,
        Side::B => 0x0b,
    };
    Mac([0x02, 0x00, high, middle, low, last])
}
