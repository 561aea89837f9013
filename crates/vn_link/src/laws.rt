ghost use Rattle.vn_types.specs.Fields.{SpellsHeader, ReadsBack};
ghost use Rattle.vn_types.specs.Refusals.{RefusesTheRest};
ghost use Rattle.vn_link.specs.Frames.{ethernet_header};
ghost use Rattle.vn_link.specs.Packets.{IsPacket, arp_format, arp_refusal};

/// What is read of the octets of a frame's header or of a packet spells them, and what fields spell is
/// read of it.
pub fn law_of_headers()
    ensures ethernet { SpellsHeader ethernet_header × ReadsBack ethernet_header }
    ensures arp { SpellsHeader arp_format × ReadsBack arp_format }
{}

/// Nothing refuses a packet, and something refuses all else.
pub fn law_of_refusal()
    ensures { RefusesTheRest arp_refusal IsPacket }
{}
