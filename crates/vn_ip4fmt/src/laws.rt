ghost use Rattle.vn_types.specs.Fields.{SpellsHeader, ReadsBack};
ghost use Rattle.vn_types.specs.Refusals.{RefusesTheRest};
ghost use Rattle.vn_types.specs.Ip4Header.{ip4_header};
ghost use Rattle.vn_ip4fmt.specs.Datagram.{IsDatagram, refusal};

/// What is read of a header's first 20 octets spells them, and what fields spell is read of it.
pub fn law_of_headers()
    ensures spells { SpellsHeader ip4_header }
    ensures read_back { ReadsBack ip4_header }
{}

/// Nothing refuses a datagram, and something refuses all else.
pub fn law_of_refusal()
    ensures { RefusesTheRest refusal IsDatagram }
{}
