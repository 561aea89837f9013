ghost use Rattle.std.specs.Prelude.{◌≡◌, ◌<◌, ◌^◌, None, Some, IsSome, IfOk, OnOk, OnErr};
ghost use Rattle.std.specs.Option.{option_map};
ghost use Rattle.vn_types.specs.declared.interface.HalfId.{HalfId};
ghost use Rattle.vn_types.specs.Interfaces.{half_id_eq};
ghost use Rattle.vn_types.specs.PerStack.{ChangesOnly};
ghost use Rattle.vn_types.specs.Refusals.{IsRefusedBy, first_refusal};
ghost use Rattle.vn_rules.specs.declared.arp.ArpEntryOf.{ArpEntryOf};
ghost use Rattle.vn_rules.specs.Arp.{entry_of, timer_at};
ghost use Rattle.vn_rules.specs.Resolution.{after_arp_delete, after_input, after_turn, arp_delete_refusals, released, turn_of};
ghost use Rattle.vn_callout.specs.Stacks.{of as timers_of};
ghost use Rattle.vn_arp.specs.Kept.{entries_of, Follows, KnowsArms, MayArm};
ghost use Rattle.vn_arp.specs.Answers.{resolution, after_resolution, turn_as};

use crate::answers::{Resolved, Turn};
use crate::change::Change;
use crate::gone::{At, OfAddress};
use crate::neighbour::Neighbour;
use crate::neighbours::Neighbours;
use crate::packets::Packets;
use crate::times::{DOWN_TIME, LEARNT_TIME, REQUEST_TIME};
use bytes::Bytes;
use vn_callout::Wheel;
use vn_link::ArpPacket;
use vn_types::{Errno, HalfId, Ip4, NoMemory, Sid};

impl Neighbours {
    /// What becomes of a datagram to a neighbour.
    pub(crate) fn resolve(
        &mut self,
        at: At,
        packet: Bytes,
        now: u64,
        sid: Sid,
        wheel: &mut Wheel,
    ) -> Result<Resolved, NoMemory>
        requires { MayArm half_id_eq now self.old (timers_of wheel.old sid.0) }
        ensures answer { IfOk result
            (λ r. r ≡ resolution half_id_eq at.half at.ip packet (entries_of self.old)) }
        ensures here { OnOk result (Follows (after_resolution half_id_eq now at.half at.ip packet)
            self.old (timers_of wheel.old sid.0) self.new (timers_of wheel.new sid.0)) }
        ensures kept { OnErr result (entries_of self.new ≡ entries_of self.old) }
        ensures knows { KnowsArms half_id_eq self.new (timers_of wheel.new sid.0) }
        ensures other_timers { ChangesOnly sid.0 (timers_of wheel.old) (timers_of wheel.new) }
    {
        if let Some(mac) = self.hit(at) {
            return Ok(Resolved::Hit { mac, packet });
        }
        if self.is_down(at) {
            return Ok(Resolved::Down(packet));
        }
        if self.has(at) {
            let dropped = self.hold(at, packet)?;
            return Ok(Resolved::Held {
                ask: false,
                dropped,
            });
        }
        let mut neighbour = Neighbour::new(self.allocator(), at);
        neighbour.hold(packet)?;
        self.add(neighbour, Some(now + REQUEST_TIME), sid, wheel)?;
        Ok(Resolved::Held {
            ask: true,
            dropped: false,
        })
    }

    /// A packet of a neighbour comes by a half (RFC 826, "Packet Reception").
    pub(crate) fn input(
        &mut self,
        half: HalfId,
        target_is_mine: bool,
        packet: &ArpPacket,
        now: u64,
        sid: Sid,
        wheel: &mut Wheel,
    ) -> Result<Packets, NoMemory>
        requires { MayArm half_id_eq now self.old (timers_of wheel.old sid.0) }
        ensures released { IfOk result (λ r. r ≡ released half_id_eq half packet.now.spa (entries_of self.old)) }
        ensures here { OnOk result
            (Follows (after_input half_id_eq now half packet.now.spa packet.now.sha target_is_mine)
            self.old (timers_of wheel.old sid.0) self.new (timers_of wheel.new sid.0)) }
        ensures kept { OnErr result (entries_of self.new ≡ entries_of self.old) }
        ensures knows { KnowsArms half_id_eq self.new (timers_of wheel.new sid.0) }
        ensures other_timers { ChangesOnly sid.0 (timers_of wheel.old) (timers_of wheel.new) }
    {
        let at = At {
            half,
            ip: packet.spa,
        };
        if !self.learns(at, target_is_mine) {
            return Ok(Packets::new(self.allocator()));
        }
        let deadline = Some(now + LEARNT_TIME);
        self.change(at, Change::Learnt(packet.sha), deadline, sid, wheel)
    }

    /// A neighbour's timer was taken out.
    pub(crate) fn turn(
        &mut self,
        at: At,
        now: u64,
        sid: Sid,
        wheel: &mut Wheel,
    ) -> Result<Turn, NoMemory>
        requires timing { MayArm half_id_eq now self.old (timers_of wheel.old sid.0) }
        requires there { IsSome (entry_of half_id_eq at.half at.ip (entries_of self.old)) }
        requires taken { timer_at half_id_eq at.half at.ip (timers_of wheel.old sid.0) ≡ None }
        ensures answer { IfOk result (λ t. Some t ≡ option_map (λ (e : ArpEntryOf HalfId). turn_as (turn_of e))
            (entry_of half_id_eq at.half at.ip (entries_of self.old))) }
        ensures here { OnOk result (Follows (after_turn half_id_eq now at.half at.ip)
            self.old (timers_of wheel.old sid.0) self.new (timers_of wheel.new sid.0)) }
        ensures kept { OnErr result (entries_of self.new ≡ entries_of self.old) }
        ensures knows { KnowsArms half_id_eq self.new (timers_of wheel.new sid.0) }
        ensures other_timers { ChangesOnly sid.0 (timers_of wheel.old) (timers_of wheel.new) }
    {
        let Some(turn) = self.next_turn(at) else {
            unreachable!()
        };
        match turn {
            Turn::Ask => {
                self.change(at, Change::Asked, Some(now + REQUEST_TIME), sid, wheel)?;
            }
            Turn::WentDown { dropped: _ } => {
                self.change(at, Change::Down, Some(now + DOWN_TIME), sid, wheel)?;
            }
            Turn::Removed => self.remove(&at, sid, wheel),
        }
        Ok(turn)
    }

    /// The entries of an address are removed, on whatever half.
    pub(crate) fn delete(&mut self, ip: Ip4, sid: Sid, wheel: &mut Wheel) -> Result<(), Errno>
        requires { KnowsArms half_id_eq self.old (timers_of wheel.old sid.0) }
        ensures answer { IsRefusedBy (first_refusal (arp_delete_refusals ip (entries_of self.old))) result }
        ensures deleted { OnOk result (Follows (after_arp_delete ip)
            self.old (timers_of wheel.old sid.0) self.new (timers_of wheel.new sid.0)) }
        ensures refused { OnErr result (self.new ≡ self.old) }
        ensures no_timer { OnErr result (timers_of wheel.new sid.0 ≡ timers_of wheel.old sid.0) }
        ensures knows { KnowsArms half_id_eq self.new (timers_of wheel.new sid.0) }
        ensures other_timers { ChangesOnly sid.0 (timers_of wheel.old) (timers_of wheel.new) }
    {
        if !self.has_address(ip) {
            return Err(Errno::NoEnt);
        }
        self.remove(&OfAddress(ip), sid, wheel);
        Ok(())
    }
}
