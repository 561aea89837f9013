ghost use Rattle.std.specs.Prelude.{◌≡◌, ◌||◌, is_some};
ghost use Rattle.std.specs.Option.{option_map};
ghost use Rattle.vn_types.specs.declared.interface.HalfId.{HalfId};
ghost use Rattle.vn_types.specs.Interfaces.{half_id_eq};
ghost use Rattle.vn_rules.specs.declared.arp.ArpEntryOf.{ArpEntryOf};
ghost use Rattle.vn_rules.specs.Arp.{entry_of, hit, is_down};
ghost use Rattle.vn_rules.specs.Resolution.{adds, merges, turn_of};
ghost use Rattle.vn_arp.specs.Kept.{entries_of};
ghost use Rattle.vn_arp.specs.Answers.{turn_as};

use crate::answers::Turn;
use crate::gone::At;
use crate::neighbours::Neighbours;
use vn_types::Mac;

impl Neighbours {
    /// The hardware address of a neighbour, where it is known.
    pub(crate) fn hit(&self, at: At) -> Option<Mac>
        ensures { result ≡ hit half_id_eq at.half at.ip (entries_of self.now) }
    {
        self.find(at)?.known_mac()
    }

    /// Whether a neighbour does not reply.
    pub(crate) fn is_down(&self, at: At) -> bool
        ensures { result ≡ is_down half_id_eq at.half at.ip (entries_of self.now) }
    {
        match self.find(at) {
            Some(neighbour) => neighbour.is_down(),
            None => false,
        }
    }

    /// Whether there is an entry for the address on the half.
    pub(crate) fn has(&self, at: At) -> bool
        ensures { result ≡ is_some (entry_of half_id_eq at.half at.ip (entries_of self.now)) }
    {
        self.find(at).is_some()
    }

    /// Whether a packet tells the hardware address of its sender (RFC 826, "Packet Reception").
    pub(crate) fn learns(&self, at: At, is_target: bool) -> bool
        ensures { result ≡ (merges half_id_eq at.half at.ip (entries_of self.now)
            || adds half_id_eq at.half at.ip is_target (entries_of self.now)) }
    {
        match self.find(at) {
            // "If the pair <protocol type, sender protocol address> is already in my translation table, update
            // the sender hardware address field of the entry".
            Some(neighbour) => !neighbour.is_static(),
            // "?Am I the target protocol address?", and "If Merge_flag is false, add the triplet .. to the
            // translation table".
            None => is_target,
        }
    }

    /// What a neighbour's timer does.
    pub(crate) fn next_turn(&self, at: At) -> Option<Turn>
        ensures { result ≡ option_map (λ (e : ArpEntryOf HalfId). turn_as (turn_of e))
            (entry_of half_id_eq at.half at.ip (entries_of self.now)) }
    {
        Some(self.find(at)?.turn())
    }
}
