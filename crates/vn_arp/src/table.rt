ghost use Rattle.std.specs.Prelude.{◌≡◌, ◌&&◌, ◌==◌, ℕ, [], not, Some, None, IsSome, IfOk, OnOk, OnErr};
ghost use Rattle.std.specs.Option.{option_map};
ghost use Rattle.vn_types.specs.declared.interface.HalfId.{HalfId};
ghost use Rattle.vn_types.specs.declared.interface.IfOf.TheVariants.{Half};
ghost use Rattle.vn_types.specs.Interfaces.{half_id_eq};
ghost use Rattle.vn_types.specs.PerStack.{ChangesOnly};
ghost use Rattle.vn_types.specs.Refusals.{IsRefusedBy, first_refusal};
ghost use Rattle.vn_rules.specs.declared.arp.ArpEntryOf.{ArpEntryOf};
ghost use Rattle.vn_rules.specs.Arp.{entry_of, held_for, hit, is_down, timer_at, without_entries};
ghost use Rattle.vn_rules.specs.Resolution.{after_arp_delete, after_input, after_static, after_turn, arp_delete_refusals, released, turn_of};
ghost use Rattle.vn_rules.specs.Timers.{no_timers};
ghost use Rattle.vn_callout.specs.Stacks.{of as timers_of};
ghost use Rattle.vn_arp.specs.Kept.{entries_of, Follows, KnowsArms, MayArm};
ghost use Rattle.vn_arp.specs.Answers.{after_resolution, is_request, resolution, turn_as};
ghost use Rattle.vn_arp.specs.Listing.{nth_entry, row_of};
ghost use Rattle.vn_arp.specs.Stacks.{Table, of};

use crate::answers::{Learned, Resolved, Turn};
use crate::change::Change;
use crate::gone::{At, Gone, On, Uncovered};
use crate::neighbours::Neighbours;
use crate::packets::Packets;
use bytes::Bytes;
use std::alloc::Global;
use std::marker::Model;
use vn_callout::Wheel;
use vn_link::ArpPacket;
use vn_rules::ArpState;
use vn_types::{Covering, Errno, HalfId, Ip4, Mac, NoMemory, PerStack, Sid};

/// The operation of a request (RFC 826).
const REQUEST: u16 = 1;

/// The ARP entries of all stacks, each with the arm number of its timer, seen as a list of stacks by their
/// numbers. The calls that are handed the wheel need, and keep, that the numbers are those of the timers on it.
#[derive(Drop)]
pub struct ArpTable {
    stacks: PerStack<Neighbours>,
}

impl Model for ArpTable {
    ghost Value = { Table };

    ghost view = { λ a. a.stacks };
}

impl ArpTable {
    /// A table in which no stack has an entry, for a wheel that is new.
    pub fn new(alloc: Global) -> Result<ArpTable, NoMemory>
        ensures none { IfOk result (λ table. (q : ℕ) → of table q ≡ []) }
        ensures knows { IfOk result (λ table. (q : ℕ) → KnowsArms half_id_eq (of table q) no_timers) }
    {
        Ok(ArpTable {
            stacks: PerStack::new(alloc),
        })
    }

    /// Whether a stack's neighbour on a half does not reply.
    pub fn is_down(&self, sid: Sid, half: HalfId, ip: Ip4) -> bool
        ensures { result ≡ is_down half_id_eq half ip (entries_of (of self.now sid.0)) }
    {
        match self.stacks.at(sid) {
            Some(neighbours) => neighbours.is_down(At { half, ip }),
            None => false,
        }
    }

    /// The hardware address of a stack's neighbour on a half, where it is known.
    pub fn hit(&self, sid: Sid, half: HalfId, ip: Ip4) -> Option<Mac>
        ensures { result ≡ hit half_id_eq half ip (entries_of (of self.now sid.0)) }
    {
        self.stacks.at(sid)?.hit(At { half, ip })
    }

    /// What a listing tells of a stack's entry at a place by address, number of the pair and side, counted
    /// from 0: half, address, hardware address and state. There is none past the end.
    pub fn at(&self, sid: Sid, place: u64) -> Option<(HalfId, Ip4, Option<Mac>, ArpState)>
        ensures { result ≡ option_map row_of (nth_entry place (entries_of (of self.now sid.0))) }
    {
        self.stacks.at(sid)?.row_at(place)
    }

    /// What becomes of a datagram that a stack sends to a neighbour on a half: it is handed back with the
    /// hardware address, or because the neighbour is down, or it waits for the neighbour's reply.
    pub fn resolve(
        &mut self,
        sid: Sid,
        half: HalfId,
        ip: Ip4,
        packet: Bytes,
        now: u64,
        wheel: &mut Wheel,
    ) -> Result<Resolved, NoMemory>
        requires { MayArm half_id_eq now (of self.old sid.0) (timers_of wheel.old sid.0) }
        ensures answer { IfOk result (λ r. r ≡ resolution half_id_eq half ip packet (entries_of (of self.old sid.0))) }
        ensures here { OnOk result (Follows (after_resolution half_id_eq now half ip packet)
            (of self.old sid.0) (timers_of wheel.old sid.0) (of self.new sid.0) (timers_of wheel.new sid.0)) }
        ensures no_memory { OnErr result (entries_of (of self.new sid.0) ≡ entries_of (of self.old sid.0)) }
        ensures knows { KnowsArms half_id_eq (of self.new sid.0) (timers_of wheel.new sid.0) }
        ensures others { ChangesOnly sid.0 (of self.old) (of self.new) }
        ensures other_timers { ChangesOnly sid.0 (timers_of wheel.old) (timers_of wheel.new) }
    {
        let neighbours = self.stacks.at_or_new(sid)?;
        neighbours.resolve(At { half, ip }, packet, now, sid, wheel)
    }

    /// A stack receives an ARP packet by a half, and learns from it where it has an entry for the sender, or
    /// where the target address is on the half (RFC 826, "Packet Reception").
    pub fn input(
        &mut self,
        sid: Sid,
        half: HalfId,
        packet: &ArpPacket,
        target_is_mine: bool,
        now: u64,
        wheel: &mut Wheel,
    ) -> Result<Learned, NoMemory>
        requires { MayArm half_id_eq now (of self.old sid.0) (timers_of wheel.old sid.0) }
        ensures release { IfOk result
            (λ r. r.release ≡ released half_id_eq half packet.now.spa (entries_of (of self.old sid.0))) }
        ensures reply { IfOk result (λ r. r.reply ≡ (target_is_mine && is_request packet.now)) }
        ensures here { OnOk result
            (Follows (after_input half_id_eq now half packet.now.spa packet.now.sha target_is_mine)
            (of self.old sid.0) (timers_of wheel.old sid.0) (of self.new sid.0) (timers_of wheel.new sid.0)) }
        ensures no_memory { OnErr result (entries_of (of self.new sid.0) ≡ entries_of (of self.old sid.0)) }
        ensures knows { KnowsArms half_id_eq (of self.new sid.0) (timers_of wheel.new sid.0) }
        ensures others { ChangesOnly sid.0 (of self.old) (of self.new) }
        ensures other_timers { ChangesOnly sid.0 (timers_of wheel.old) (timers_of wheel.new) }
    {
        let release = self
            .stacks
            .at_or_new(sid)?
            .input(half, target_is_mine, packet, now, sid, wheel)?;
        // "Now look at the opcode .. Send the packet to the (new) target hardware address".
        let reply = target_is_mine && packet.op == REQUEST;
        Ok(Learned { release, reply })
    }

    /// The timer of a stack's entry was taken out, since it was due.
    pub fn turn(
        &mut self,
        sid: Sid,
        half: HalfId,
        ip: Ip4,
        now: u64,
        wheel: &mut Wheel,
    ) -> Result<Turn, NoMemory>
        requires timing { MayArm half_id_eq now (of self.old sid.0) (timers_of wheel.old sid.0) }
        requires there { IsSome (entry_of half_id_eq half ip (entries_of (of self.old sid.0))) }
        requires taken { timer_at half_id_eq half ip (timers_of wheel.old sid.0) ≡ None }
        ensures answer { IfOk result (λ t. Some t ≡ option_map (λ (e : ArpEntryOf HalfId). turn_as (turn_of e))
            (entry_of half_id_eq half ip (entries_of (of self.old sid.0)))) }
        ensures here { OnOk result (Follows (after_turn half_id_eq now half ip)
            (of self.old sid.0) (timers_of wheel.old sid.0) (of self.new sid.0) (timers_of wheel.new sid.0)) }
        ensures no_memory { OnErr result (entries_of (of self.new sid.0) ≡ entries_of (of self.old sid.0)) }
        ensures knows { KnowsArms half_id_eq (of self.new sid.0) (timers_of wheel.new sid.0) }
        ensures others { ChangesOnly sid.0 (of self.old) (of self.new) }
        ensures other_timers { ChangesOnly sid.0 (timers_of wheel.old) (timers_of wheel.new) }
    {
        let at = At { half, ip };
        self.stacks.at_or_new(sid)?.turn(at, now, sid, wheel)
    }

    /// The hardware address of a stack's neighbour on a half is set by hand (arp(8), `-s`). What waited for it
    /// is handed out.
    pub fn set_static(
        &mut self,
        sid: Sid,
        half: HalfId,
        ip: Ip4,
        mac: Mac,
        wheel: &mut Wheel,
    ) -> Result<Packets, NoMemory>
        requires { KnowsArms half_id_eq (of self.old sid.0) (timers_of wheel.old sid.0) }
        ensures release { IfOk result (λ r. r ≡ held_for half_id_eq half ip (entries_of (of self.old sid.0))) }
        ensures here { OnOk result (Follows (after_static half_id_eq half ip mac)
            (of self.old sid.0) (timers_of wheel.old sid.0) (of self.new sid.0) (timers_of wheel.new sid.0)) }
        ensures no_memory { OnErr result (entries_of (of self.new sid.0) ≡ entries_of (of self.old sid.0)) }
        ensures knows { KnowsArms half_id_eq (of self.new sid.0) (timers_of wheel.new sid.0) }
        ensures others { ChangesOnly sid.0 (of self.old) (of self.new) }
        ensures other_timers { ChangesOnly sid.0 (timers_of wheel.old) (timers_of wheel.new) }
    {
        self.stacks
            .at_or_new(sid)?
            .change(At { half, ip }, Change::Static(mac), None, sid, wheel)
    }

    /// The entries of a stack for an address are removed, on whatever half (arp(8), `-d`).
    pub fn delete(&mut self, sid: Sid, ip: Ip4, wheel: &mut Wheel) -> Result<(), Errno>
        requires { KnowsArms half_id_eq (of self.old sid.0) (timers_of wheel.old sid.0) }
        ensures answer { IsRefusedBy
            (first_refusal (arp_delete_refusals ip (entries_of (of self.old sid.0)))) result }
        ensures deleted { OnOk result (Follows (after_arp_delete ip)
            (of self.old sid.0) (timers_of wheel.old sid.0) (of self.new sid.0) (timers_of wheel.new sid.0)) }
        ensures refused { OnErr result (of self.new sid.0 ≡ of self.old sid.0) }
        ensures no_timer { OnErr result (timers_of wheel.new sid.0 ≡ timers_of wheel.old sid.0) }
        ensures knows { KnowsArms half_id_eq (of self.new sid.0) (timers_of wheel.new sid.0) }
        ensures others { ChangesOnly sid.0 (of self.old) (of self.new) }
        ensures other_timers { ChangesOnly sid.0 (timers_of wheel.old) (timers_of wheel.new) }
    {
        match self.stacks.at_mut(sid) {
            Some(neighbours) => neighbours.delete(ip, sid, wheel),
            None => Err(Errno::NoEnt),
        }
    }

    /// The entries of a stack on a half are removed.
    pub fn purge_interface(&mut self, sid: Sid, half: HalfId, wheel: &mut Wheel)
        requires { KnowsArms half_id_eq (of self.old sid.0) (timers_of wheel.old sid.0) }
        ensures purged { Follows (without_entries (λ own ip. half_id_eq own half))
            (of self.old sid.0) (timers_of wheel.old sid.0) (of self.new sid.0) (timers_of wheel.new sid.0) }
        ensures knows { KnowsArms half_id_eq (of self.new sid.0) (timers_of wheel.new sid.0) }
        ensures others { ChangesOnly sid.0 (of self.old) (of self.new) }
        ensures other_timers { ChangesOnly sid.0 (timers_of wheel.old) (timers_of wheel.new) }
    {
        self.remove(&On(half), sid, wheel);
    }

    /// The entries of a stack on a half are removed that no interface route of the half covers any more.
    pub fn purge_uncovered<R: Covering>(
        &mut self,
        sid: Sid,
        half: HalfId,
        routes: &R,
        wheel: &mut Wheel,
    )
        requires { KnowsArms half_id_eq (of self.old sid.0) (timers_of wheel.old sid.0) }
        ensures purged { Follows
            (without_entries (λ own ip. half_id_eq own half && not (R.covers routes.now sid (Half own) ip)))
            (of self.old sid.0) (timers_of wheel.old sid.0) (of self.new sid.0) (timers_of wheel.new sid.0) }
        ensures knows { KnowsArms half_id_eq (of self.new sid.0) (timers_of wheel.new sid.0) }
        ensures others { ChangesOnly sid.0 (of self.old) (of self.new) }
        ensures other_timers { ChangesOnly sid.0 (timers_of wheel.old) (timers_of wheel.new) }
    {
        self.remove(&Uncovered { sid, half, routes }, sid, wheel);
    }

    fn remove<G: Gone>(&mut self, gone: &G, sid: Sid, wheel: &mut Wheel)
        requires { KnowsArms half_id_eq (of self.old sid.0) (timers_of wheel.old sid.0) }
        ensures removed { Follows (without_entries (G.goes gone.now))
            (of self.old sid.0) (timers_of wheel.old sid.0) (of self.new sid.0) (timers_of wheel.new sid.0) }
        ensures knows { KnowsArms half_id_eq (of self.new sid.0) (timers_of wheel.new sid.0) }
        ensures others { ChangesOnly sid.0 (of self.old) (of self.new) }
        ensures other_timers { ChangesOnly sid.0 (timers_of wheel.old) (timers_of wheel.new) }
    {
        let Some(neighbours) = self.stacks.at_mut(sid) else {
            return;
        };
        neighbours.remove(gone, sid, wheel);
    }
}
