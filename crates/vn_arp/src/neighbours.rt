ghost use Rattle.std.specs.Prelude.{◌≡◌, ◌<◌, ◌^◌, ◌++◌, ◌∷◌, [], ◌==◌, not, None, IsSome, IfOk, IfSome, OnOk, OnErr, MatchOption};
ghost use Rattle.std.specs.List.{filter, list_any, position};
ghost use Rattle.std.specs.Option.{option_map};
ghost use Rattle.vn_types.specs.Interfaces.{half_id_eq};
ghost use Rattle.vn_types.specs.declared.interface.HalfId.{HalfId};
ghost use Rattle.vn_types.specs.PerStack.{ChangesOnly};
ghost use Rattle.vn_rules.specs.declared.arp.ArpEntryOf.{ArpEntryOf};
ghost use Rattle.vn_rules.specs.declared.timer.TimerOf.TheVariants.{Arp};
ghost use Rattle.vn_rules.specs.Arp.{entry_of, held_for, holding, without_timers_where};
ghost use Rattle.vn_rules.specs.Resolution.{drops_oldest};
ghost use Rattle.vn_callout.specs.Stacks.{of as timers_of};
ghost use Rattle.vn_arp.specs.Kept.{Follows, IsPut, KeptOf, KnowsArms, arm_of, entries_of, is_kept_at};
ghost use Rattle.vn_arp.specs.Changes.{MayBecome, after_change, armed_for, released_by};
ghost use Rattle.vn_arp.specs.Listing.{nth_entry, row_of};

use crate::change::Change;
use crate::gone::{At, Gone};
use crate::listing::list;
use crate::neighbour::Neighbour;
use crate::packets::Packets;
use crate::timers::stop_timers;
use bytes::Bytes;
use std::alloc::Global;
use std::marker::Model;
use vn_callout::Wheel;
use vn_rules::ArpState;
use vn_types::{Empty, HalfId, Ip4, Mac, NoMemory, Sid};

/// The entries of one stack, in order of making, and their places in the order of a listing.
#[derive(Drop)]
pub(crate) struct Neighbours {
    entries: Vec<Neighbour>,
    order: Vec<At>,
}

impl Model for Neighbours {
    ghost use Rattle.std.specs.Prelude.{List};
    ghost use Rattle.vn_types.specs.declared.interface.HalfId.{HalfId};
    ghost use Rattle.vn_arp.specs.Kept.{KeptOf};
    ghost use Rattle.vn_arp.specs.Listing.{IsIndexed};

    ghost Value = { List (KeptOf HalfId) };

    ghost view = { λ a. a.entries.items };

    ghost invariant = { λ a. IsIndexed a.order.items a.entries.items };
}

impl Empty for Neighbours {
    ghost empty = { [] };

    fn empty(alloc: Global) -> Neighbours {
        Neighbours {
            entries: Vec::new(alloc),
            order: Vec::new(alloc),
        }
    }
}

impl Neighbours {
    /// The entry of the address on the half.
    pub(crate) fn find(&self, at: At) -> Option<&Neighbour>
        ensures { MatchOption result
            (entry_of half_id_eq at.half at.ip (entries_of self.now) ≡ None)
            (λ n. entry_of half_id_eq at.half at.ip (entries_of self.now) ≡ Some n.now.entry) }
    {
        self.entries.iter().find(|neighbour| neighbour.is_at(at))
    }

    /// Its place.
    fn place(&self, at: At) -> Option<usize>
        ensures { result ≡ position (is_kept_at half_id_eq at.half at.ip) self.now }
    {
        self.entries
            .iter()
            .position(|neighbour| neighbour.is_at(at))
    }

    /// Whether there is an entry for the address on some half.
    pub(crate) fn has_address(&self, ip: Ip4) -> bool
        ensures { result ≡ list_any (λ (k : KeptOf HalfId). k.entry.ip.0 == ip.0) self.now }
    {
        self.entries
            .iter()
            .any(|neighbour| neighbour.ip().0 == ip.0)
    }

    /// What a listing tells of the entry at a place in its order, counted from 0.
    pub(crate) fn row_at(&self, place: u64) -> Option<(HalfId, Ip4, Option<Mac>, ArpState)>
        ensures { result ≡ option_map row_of (nth_entry place (entries_of self.now)) }
    {
        let at = *self.order.get(place as usize)?;
        Some(self.find(at)?.row())
    }

    pub(crate) fn allocator(&self) -> Global {
        *self.entries.allocator()
    }

    /// Adds an entry that is not there yet, and arms its timer for the deadline, where there is one.
    pub(crate) fn add(
        &mut self,
        mut neighbour: Neighbour,
        deadline: Option<u64>,
        sid: Sid,
        wheel: &mut Wheel,
    ) -> Result<(), NoMemory>
        requires armed { IfSome deadline (λ _. (timers_of wheel.old sid.0).armed < 2 ^ 63) }
        requires knows { KnowsArms half_id_eq self.old (timers_of wheel.old sid.0) }
        requires no_timer { neighbour.arm ≡ None }
        requires absent { entry_of half_id_eq neighbour.entry.half neighbour.entry.ip (entries_of self.old)
            ≡ None }
        ensures added { OnOk result (entries_of self.new ≡ entries_of self.old ++ neighbour.entry ∷ []) }
        ensures timed { OnOk result (timers_of wheel.new sid.0 ≡ armed_for deadline
            (Arp neighbour.entry.half neighbour.entry.ip) (timers_of wheel.old sid.0)) }
        ensures kept { OnErr result (self.new ≡ self.old) }
        ensures no_timer { OnErr result (timers_of wheel.new sid.0 ≡ timers_of wheel.old sid.0) }
        ensures knows { KnowsArms half_id_eq self.new (timers_of wheel.new sid.0) }
        ensures other_timers { ChangesOnly sid.0 (timers_of wheel.old) (timers_of wheel.new) }
    {
        self.entries.reserve(1)?;
        self.order.reserve(1)?;
        neighbour.retime(deadline, sid, wheel)?;
        list(&mut self.order, neighbour.at());
        self.entries.push_reserved(neighbour);
        Ok(())
    }

    /// One datagram more waits for a neighbour. Tells whether the oldest gave way.
    pub(crate) fn hold(&mut self, at: At, packet: Bytes) -> Result<bool, NoMemory>
        requires { IsSome (entry_of half_id_eq at.half at.ip (entries_of self.old)) }
        ensures dropped { IfOk result
            (λ dropped. dropped ≡ drops_oldest half_id_eq at.half at.ip (entries_of self.old)) }
        ensures held { OnOk result (IsPut half_id_eq at.half at.ip (holding packet)
            (arm_of half_id_eq at.half at.ip self.old) self.old self.new) }
        ensures kept { OnErr result (self.new ≡ self.old) }
    {
        let Some(place) = self.place(at) else {
            unreachable!()
        };
        self.entries[place].hold(packet)
    }

    /// The entry of an address on a half changes, or is made, and its timer is armed anew for the deadline, or
    /// stopped. What waited for the neighbour, and waits no more, is handed out.
    pub(crate) fn change(
        &mut self,
        at: At,
        change: Change,
        deadline: Option<u64>,
        sid: Sid,
        wheel: &mut Wheel,
    ) -> Result<Packets, NoMemory>
        requires armed { IfSome deadline (λ _. (timers_of wheel.old sid.0).armed < 2 ^ 63) }
        requires knows { KnowsArms half_id_eq self.old (timers_of wheel.old sid.0) }
        requires may { MayBecome change (entry_of half_id_eq at.half at.ip (entries_of self.old)) }
        ensures released { IfOk result (λ r. r
            ≡ released_by change (held_for half_id_eq at.half at.ip (entries_of self.old))) }
        ensures here { OnOk result (Follows (after_change half_id_eq change deadline at.half at.ip)
            self.old (timers_of wheel.old sid.0) self.new (timers_of wheel.new sid.0)) }
        ensures kept { OnErr result (entries_of self.new ≡ entries_of self.old) }
        ensures knows { KnowsArms half_id_eq self.new (timers_of wheel.new sid.0) }
        ensures other_timers { ChangesOnly sid.0 (timers_of wheel.old) (timers_of wheel.new) }
    {
        let Some(place) = self.place(at) else {
            let mut neighbour = Neighbour::new(self.allocator(), at);
            let released = neighbour.apply(change);
            self.add(neighbour, deadline, sid, wheel)?;
            return Ok(released);
        };
        let neighbour = &mut self.entries[place];
        neighbour.retime(deadline, sid, wheel)?;
        Ok(neighbour.apply(change))
    }

    /// Takes out the entries that go, with their timers.
    pub(crate) fn remove<G: Gone>(&mut self, gone: &G, sid: Sid, wheel: &mut Wheel)
        requires { KnowsArms half_id_eq self.old (timers_of wheel.old sid.0) }
        ensures left { entries_of self.new
            ≡ filter (λ (e : ArpEntryOf HalfId). not (G.goes gone.now e.half e.ip)) (entries_of self.old) }
        ensures stopped { timers_of wheel.new sid.0
            ≡ without_timers_where (G.goes gone.now) (timers_of wheel.old sid.0) }
        ensures knows { KnowsArms half_id_eq self.new (timers_of wheel.new sid.0) }
        ensures other_timers { ChangesOnly sid.0 (timers_of wheel.old) (timers_of wheel.new) }
    {
        stop_timers(self.entries.as_slice(), gone, sid, wheel);
        self.entries
            .retain(|neighbour| !gone.goes(neighbour.half(), neighbour.ip()));
        self.order.retain(|at| !gone.goes(at.half, at.ip));
    }
}
