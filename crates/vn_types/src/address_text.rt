ghost use Rattle.std.specs.Prelude.{◌≡◌, ◌≤◌, ◌++◌, Some, IfSome, OnOk, OnErr};
ghost use Rattle.std.specs.Io.{StartsWith};
ghost use Rattle.vn_types.specs.AddressWords.{ip4_parts, ip4_of, ip4_text, prefix_parts, prefix_of, prefix_text};

use crate::address::{Ip4, Mac, Prefix};
use crate::memory::NoMemory;
use crate::number::{read_octet, read_up_to};
use crate::text::{cut, digits, put, put_all, put_number, restore};
use itoa::Buffer;

/// The address that four numbers with dots spell.
pub fn read_ip4(text: &[u8]) -> Option<Ip4>
    ensures ip { result ≡ ip4_of text.now }
    // An address is written as it was read.
    ensures canonical { IfSome result (λ ip. ip4_text ip ≡ text.now) }
{
    let (a, rest) = cut(text, b'.')?;
    let (b, rest) = cut(rest, b'.')?;
    let (c, d) = cut(rest, b'.')?;
    ip4_of_parts(a, b, c, d)
}

#[tactic(auto, unfolding(crate::specs::AddressWords::ip4_parts))]
fn ip4_of_parts(a: &[u8], b: &[u8], c: &[u8], d: &[u8]) -> Option<Ip4>
    ensures { result ≡ ip4_parts a.now b.now c.now d.now }
{
    let a = read_octet(a)?;
    let b = read_octet(b)?;
    let c = read_octet(c)?;
    let d = read_octet(d)?;
    Some(Ip4(u32::from_be_bytes([a, b, c, d])))
}

/// Puts an address at the end of the output.
pub fn write_ip4(ip: Ip4, out: &mut Vec<u8>) -> Result<(), NoMemory>
    ensures written { OnOk result (out.new.items ≡ out.old.items ++ ip4_text ip) }
    ensures kept { OnErr result (out.new.items ≡ out.old.items) }
    // What is written is read.
    ensures read_back { ip4_of (ip4_text ip) ≡ Some ip }
{
    let Ip4(number) = ip;
    let [a, b, c, d] = number.to_be_bytes();
    let (mut first, mut second) = (Buffer::new(), Buffer::new());
    let (mut third, mut fourth) = (Buffer::new(), Buffer::new());
    let a = digits(&mut first, u64::from(a));
    let b = digits(&mut second, u64::from(b));
    let c = digits(&mut third, u64::from(c));
    let d = digits(&mut fourth, u64::from(d));
    put_all(&[a, b".", b, b".", c, b".", d], out)
}

/// The address with a length that a text spells. All its 32 bits are kept.
pub fn read_prefix(text: &[u8]) -> Option<Prefix>
    ensures prefix { result ≡ prefix_of text.now }
    ensures bound { IfSome result (λ prefix. prefix.len ≤ 32) }
    // What is read is written the same.
    ensures canonical { IfSome result (λ prefix. prefix_text prefix ≡ text.now) }
{
    let (ip, length) = cut(text, b'/')?;
    prefix_of_parts(ip, length)
}

#[tactic(auto, unfolding(crate::specs::AddressWords::prefix_parts))]
fn prefix_of_parts(ip: &[u8], length: &[u8]) -> Option<Prefix>
    ensures { result ≡ prefix_parts ip.now length.now }
{
    let net = read_ip4(ip)?;
    let len = read_up_to(length, 32)?;
    Some(Prefix {
        net,
        len: len as u8,
    })
}

/// Puts an address with its length at the end of the output.
pub fn write_prefix(prefix: Prefix, out: &mut Vec<u8>) -> Result<(), NoMemory>
    requires { prefix.len ≤ 32 }
    ensures written { OnOk result (out.new.items ≡ out.old.items ++ prefix_text prefix) }
    ensures kept { OnErr result (out.new.items ≡ out.old.items) }
    // What is written is read.
    ensures read_back { prefix_of (prefix_text prefix) ≡ Some prefix }
{
    let start = out.len();
    let written = put_prefix(prefix, out);
    restore(written, start, out)
}

fn put_prefix(prefix: Prefix, out: &mut Vec<u8>) -> Result<(), NoMemory>
    requires { prefix.len ≤ 32 }
    ensures put { OnOk result (out.new.items ≡ out.old.items ++ prefix_text prefix) }
    ensures front { StartsWith out.new.items out.old.items }
{
    let Prefix { net, len } = prefix;
    write_ip4(net, out)?;
    put(b"/", out)?;
    put_number(u64::from(len), out)
}
