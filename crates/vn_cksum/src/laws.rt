ghost use Rattle.vn_cksum.specs.Laws.{HasSixteenBits, DefersCarries, KeepsNoOrder, AddsRows, StandsForRow, ReplacesWord, Completes, IsZeroOfZeros, HasTwoZeros};

/// A sum has 16 bits, and is that of a wider total whose carries are added at the end (RFC 1071,
/// section 2).
pub fn law_of_carries()
    ensures bits { HasSixteenBits }
    ensures deferred { DefersCarries }
{}

/// The order of words is free.
pub fn law_of_order()
    ensures { KeepsNoOrder }
{}

/// Octets may be summed in pieces, if each piece but the last has an even length.
pub fn law_of_pieces()
    ensures added { AddsRows }
    ensures carried { StandsForRow }
{}

/// A word in another's place changes the sum by the folded difference (RFC 1624, equation 3).
pub fn law_of_replacement()
    ensures { ReplacesWord }
{}

/// The complement of the sum, in a field that was 0 at an even place, makes the whole sum 0xffff.
pub fn law_of_complement()
    ensures { Completes }
{}

/// A sum is 0 only of all zeros. In a field, 0xffff is 0 in another form, unless all else is zeros.
pub fn law_of_zero()
    ensures zeros { IsZeroOfZeros }
    ensures forms { HasTwoZeros }
{}
