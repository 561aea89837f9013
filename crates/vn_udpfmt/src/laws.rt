ghost use Rattle.vn_types.specs.Fields.{SpellsHeader, ReadsBack};
ghost use Rattle.vn_types.specs.Refusals.{RefusesTheRest};
ghost use Rattle.vn_types.specs.declared.address.Ip4.{Ip4 as Address};
ghost use Rattle.vn_udpfmt.specs.Datagram.{IsDatagram, refusal};
ghost use Rattle.vn_udpfmt.specs.Header.{udp_header};

/// What is read of a header's 8 octets spells them, and what fields spell is read of it.
pub fn law_of_headers()
    ensures spells { SpellsHeader udp_header }
    ensures read_back { ReadsBack udp_header }
{}

/// Nothing refuses a datagram, and something refuses all else.
pub fn law_of_refusal()
    ensures { (src dst : Address) → RefusesTheRest (refusal src dst) (IsDatagram src dst) }
{}
