ghost use Rattle.std.specs.Prelude.{◌≡◌, ◌==◌, ◌<◌, ◌++◌, ◌∷◌, [], decimal, length, position, take, IfSome, IfNone, OnOk, OnErr};
ghost use Rattle.std.specs.Io.{StartsWith};
ghost use Rattle.std.specs.Char.{digit_char};
ghost use Rattle.std.specs.List.{flat_map, slice_split};
ghost use Rattle.vn_types.specs.AddressWords.{hex_octet};

use crate::memory::NoMemory;
use itoa::Buffer;

/// What stands before the first octet that is `at`, and what stands after it.
pub fn cut(text: &[u8], at: u8) -> Option<(&[u8], &[u8])>
    ensures whole { IfNone result (slice_split (λ c. c == at) text.now ≡ text.now ∷ []) }
    ensures parts { IfSome result (λ r.
        slice_split (λ c. c == at) text.now ≡ r.0.now ∷ slice_split (λ c. c == at) r.1.now) }
    ensures shorter { IfSome result (λ r. length r.1.now < length text.now) }
{
    match place_of(text, at) {
        Some(place) => Some((&text[..place], &text[place + 1..])),
        None => None,
    }
}

/// Where an octet first stands.
pub fn place_of(text: &[u8], at: u8) -> Option<usize>
    ensures { result ≡ position (λ c. c == at) text.now }
{
    text.iter().position(|c| *c == at)
}

/// A number's decimal digits.
pub(crate) fn digits(buffer: &mut Buffer, number: u64) -> &[u8]
    ensures { result.now ≡ decimal number }
{
    buffer.format(number).as_bytes()
}

/// Puts a text at the end of the output.
pub fn put(text: &[u8], out: &mut Vec<u8>) -> Result<(), NoMemory>
    ensures put { OnOk result (out.new.items ≡ out.old.items ++ text.now) }
    ensures kept { OnErr result (out.new.items ≡ out.old.items) }
    ensures front { StartsWith out.new.items out.old.items }
{
    out.extend_from_slice(text)?;
    Ok(())
}

/// Puts a number's decimal digits at the end of the output.
pub fn put_number(number: u64, out: &mut Vec<u8>) -> Result<(), NoMemory>
    ensures put { OnOk result (out.new.items ≡ out.old.items ++ decimal number) }
    ensures kept { OnErr result (out.new.items ≡ out.old.items) }
    ensures front { StartsWith out.new.items out.old.items }
{
    let mut buffer = Buffer::new();
    put(digits(&mut buffer, number), out)
}

/// Puts texts at the end of the output in a row.
pub fn put_all(parts: &[&[u8]], out: &mut Vec<u8>) -> Result<(), NoMemory>
    ensures put { OnOk result
        (out.new.items ≡ out.old.items ++ flat_map (λ part. part.now) parts.now) }
    ensures kept { OnErr result (out.new.items ≡ out.old.items) }
    ensures front { StartsWith out.new.items out.old.items }
{
    let start = out.len();
    let written = put_each(parts, out);
    restore(written, start, out)
}

fn put_each(parts: &[&[u8]], out: &mut Vec<u8>) -> Result<(), NoMemory>
    ensures put { OnOk result
        (out.new.items ≡ out.old.items ++ flat_map (λ part. part.now) parts.now) }
    ensures front { StartsWith out.new.items out.old.items }
{
    for part in parts {
        put(part, out)?;
    }
    Ok(())
}

/// Passes on how a writer ended that found `start` octets in the output: after want of memory it
/// has no others.
pub fn restore(
    written: Result<(), NoMemory>,
    start: usize,
    out: &mut Vec<u8>,
) -> Result<(), NoMemory>
    ensures same { result ≡ written }
    ensures ok { OnOk written (out.new.items ≡ out.old.items) }
    ensures err { OnErr written (out.new.items ≡ take start out.old.items) }
{
    if written.is_err() {
        out.truncate(start);
    }
    written
}

/// The two hexadecimal digits of an octet, in lower case.
pub fn hex_pair(octet: u8) -> [u8; 2]
    ensures { result ≡ hex_octet octet }
{
    [hex_digit(octet / 16), hex_digit(octet % 16)]
}

fn hex_digit(digit: u8) -> u8
    requires { digit < 16 }
    ensures { result ≡ digit_char digit }
{
    if digit < 10 {
        b'0' + digit
    } else {
        b'a' + (digit - 10)
    }
}
