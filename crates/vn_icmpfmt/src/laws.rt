ghost use Rattle.vn_types.specs.Refusals.{RefusesTheRest};
ghost use Rattle.vn_icmpfmt.specs.Grammar.{IsMessage, refusal};

/// Nothing refuses a message, and something refuses all else.
pub fn law_of_refusal()
    ensures { RefusesTheRest refusal IsMessage }
{}
