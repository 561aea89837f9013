ghost use Rattle.std.specs.Prelude.{◌≡◌, ℕ, ◌<◌, ◌≤◌, ◌^◌, Some, IfSome, decimal};
ghost use Rattle.std.specs.Char.{is_ascii_digit};
ghost use Rattle.std.specs.List.{list_all};
ghost use Rattle.vn_types.specs.NumberWords.{is_numeral, number_up_to, number_of};

/// The number that decimal digits spell, without a sign and without a leading zero.
#[tactic(auto, using(crate::proofs::Digits::number_read_back, crate::proofs::Digits::no_number))]
pub fn read_number(text: &[u8]) -> Option<u64>
    ensures number { result ≡ number_of text.now }
    // What is read is written the same, and what is written is read.
    ensures canonical { IfSome result (λ n. decimal n ≡ text.now) }
    ensures read_back { (n : ℕ) → n < 2 ^ 64 → number_of (decimal n) ≡ Some n }
{
    if !is_numeral(text) {
        return None;
    }
    match str::from_utf8(text) {
        Ok(digits) => digits.parse().ok(),
        Err(_) => None,
    }
}

fn are_digits(text: &[u8]) -> bool
    ensures { result ≡ list_all is_ascii_digit text.now }
{
    text.iter().all(|c| c.is_ascii_digit())
}

#[tactic(auto, using(crate::proofs::Digits::long_numeral), unfolding(crate::specs::NumberWords::is_numeral))]
fn is_numeral(text: &[u8]) -> bool
    ensures { result ≡ is_numeral text.now }
{
    match text {
        [] => false,
        [digit] => digit.is_ascii_digit(),
        [first, ..] => *first != b'0' && are_digits(text),
    }
}

/// The number that a text spells, where it is not above a bound.
#[tactic(auto, using(crate::proofs::Digits::number_within, crate::proofs::Digits::number_beyond, crate::proofs::Digits::number_nowhere))]
pub(crate) fn read_up_to(text: &[u8], most: u64) -> Option<u64>
    ensures number { result ≡ number_up_to most text.now }
    ensures bound { IfSome result (λ n. n ≤ most) }
{
    match read_number(text) {
        Some(number) => { if number <= most { Some(number) } else { None } }
        None => None,
    }
}

/// A number that fits an octet.
pub(crate) fn read_octet(text: &[u8]) -> Option<u8>
    ensures { result ≡ number_up_to 255 text.now }
{
    let number = read_up_to(text, 255)?;
    Some(number as u8)
}

/// A number that fits 32 bits.
pub(crate) fn read_unit(text: &[u8]) -> Option<u32>
    ensures { result ≡ number_up_to 4294967295 text.now }
{
    let number = read_up_to(text, 4_294_967_295)?;
    Some(number as u32)
}
