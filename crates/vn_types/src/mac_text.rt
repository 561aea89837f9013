ghost use Rattle.std.specs.Prelude.{◌≡◌, ◌<◌, ◌++◌, Some, IfSome, OnOk, OnErr};
ghost use Rattle.std.specs.Str.{str_to_ascii_lowercase};
ghost use Rattle.vn_types.specs.AddressWords.{hex_digit_of, hex_octet_of, mac_parts, mac_of, mac_text};

use crate::address::Mac;
use crate::memory::NoMemory;
use crate::text::{cut, hex_pair, put_all};

/// The hardware address that six groups of two hexadecimal digits with colons spell.
pub fn read_mac(text: &[u8]) -> Option<Mac>
    ensures mac { result ≡ mac_of text.now }
    // What is read is written in lower case.
    ensures canonical { IfSome result (λ mac. mac_text mac ≡ str_to_ascii_lowercase text.now) }
{
    let (a, rest) = cut(text, b':')?;
    let (b, rest) = cut(rest, b':')?;
    let (c, rest) = cut(rest, b':')?;
    let (d, rest) = cut(rest, b':')?;
    let (e, f) = cut(rest, b':')?;
    mac_of_parts(a, b, c, d, e, f)
}

#[tactic(auto, unfolding(crate::specs::AddressWords::mac_parts))]
fn mac_of_parts(a: &[u8], b: &[u8], c: &[u8], d: &[u8], e: &[u8], f: &[u8]) -> Option<Mac>
    ensures { result ≡ mac_parts a.now b.now c.now d.now e.now f.now }
{
    let a = read_hex_octet(a)?;
    let b = read_hex_octet(b)?;
    let c = read_hex_octet(c)?;
    let d = read_hex_octet(d)?;
    let e = read_hex_octet(e)?;
    let f = read_hex_octet(f)?;
    Some(Mac([a, b, c, d, e, f]))
}

#[tactic(auto, unfolding(crate::specs::AddressWords::hex_octet_of))]
fn read_hex_octet(text: &[u8]) -> Option<u8>
    ensures { result ≡ hex_octet_of text.now }
{
    match text {
        [high, low] => {
            let high = read_hex_digit(*high)?;
            let low = read_hex_digit(*low)?;
            Some(16 * high + low)
        }
        _ => None,
    }
}

#[tactic(auto, unfolding(crate::specs::AddressWords::hex_digit_of))]
fn read_hex_digit(c: u8) -> Option<u8>
    ensures digit { result ≡ hex_digit_of c }
    ensures bound { IfSome result (λ digit. digit < 16) }
{
    let digit = (c as char).to_digit(16)?;
    Some(digit as u8)
}

/// Puts a hardware address at the end of the output, in lower case.
pub fn write_mac(mac: Mac, out: &mut Vec<u8>) -> Result<(), NoMemory>
    ensures written { OnOk result (out.new.items ≡ out.old.items ++ mac_text mac) }
    ensures kept { OnErr result (out.new.items ≡ out.old.items) }
    // What is written is read.
    ensures read_back { mac_of (mac_text mac) ≡ Some mac }
{
    let Mac(octets) = mac;
    let [a, b, c, d, e, f] = octets;
    let (a, b, c) = (hex_pair(a), hex_pair(b), hex_pair(c));
    let (d, e, f) = (hex_pair(d), hex_pair(e), hex_pair(f));
    put_all(&[&a, b":", &b, b":", &c, b":", &d, b":", &e, b":", &f], out)
}
