ghost use Rattle.std.specs.Prelude.{◌≡◌, ◌++◌, decimal, OnOk};
ghost use Rattle.std.specs.Io.{StartsWith};
ghost use Rattle.vn_types.specs.AddressWords.{hex_octet, ip4_text, prefix_text};

use vn_types::{Ip4, NoMemory, hex_pair, write_ip4};
pub(crate) use vn_types::{put, put_number};

/// Puts an address and the length of its prefix at the end of the output.
#[tactic(auto, unfolding(vn_types::specs::AddressWords::prefix_text))]
pub(crate) fn put_prefix(ip: Ip4, len: u8, out: &mut Vec<u8>) -> Result<(), NoMemory>
    ensures put { OnOk result (out.new.items
        ≡ out.old.items ++ prefix_text (record { net = ip; len = len })) }
    ensures front { StartsWith out.new.items out.old.items }
{
    write_ip4(ip, out)?;
    put(b"/", out)?;
    put_number(u64::from(len), out)
}

/// Puts two hexadecimal digits in lower case at the end of the output.
pub(crate) fn put_octet(octet: u8, out: &mut Vec<u8>) -> Result<(), NoMemory>
    ensures put { OnOk result (out.new.items ≡ out.old.items ++ hex_octet octet) }
    ensures front { StartsWith out.new.items out.old.items }
{
    put(&hex_pair(octet), out)
}

/// Puts a text, and an address behind it, at the end of the output.
pub(crate) fn put_with_ip4(text: &[u8], ip: Ip4, out: &mut Vec<u8>) -> Result<(), NoMemory>
    ensures put { OnOk result (out.new.items ≡ out.old.items ++ text.now ++ ip4_text ip) }
    ensures front { StartsWith out.new.items out.old.items }
{
    put(text, out)?;
    write_ip4(ip, out)
}

/// Puts a text, a name, a mark and a number at the end of the output.
pub(crate) fn put_assigned(
    text: &[u8],
    name: &[u8],
    mark: &[u8],
    number: u64,
    out: &mut Vec<u8>,
) -> Result<(), NoMemory>
    ensures put { OnOk result (out.new.items
        ≡ out.old.items ++ text.now ++ name.now ++ mark.now ++ decimal number) }
    ensures front { StartsWith out.new.items out.old.items }
{
    put(text, out)?;
    put(name, out)?;
    put(mark, out)?;
    put_number(number, out)
}
