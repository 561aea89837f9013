ghost use Rattle.std.specs.Prelude.{◌≡◌, ◌++◌, OnOk};
ghost use Rattle.std.specs.Io.{StartsWith};
ghost use Rattle.vn_cells.specs.texts.Programs.{arp_text, arp_removal_text};

use crate::put::{put, put_with_ip4};
use vn_types::{Ip4, Mac, NoMemory, write_mac};

/// The entries of an address are removed (arp(8), `-d`).
pub(crate) fn put_arp_removal(ip: Ip4, out: &mut Vec<u8>) -> Result<(), NoMemory>
    ensures put { OnOk result (out.new.items ≡ out.old.items ++ arp_removal_text ip) }
    ensures front { StartsWith out.new.items out.old.items }
{
    put_with_ip4(b"arp -d ", ip, out)
}

/// A static entry is set (arp(8), `-s`).
pub(crate) fn put_arp(ip: Ip4, mac: Mac, out: &mut Vec<u8>) -> Result<(), NoMemory>
    ensures put { OnOk result (out.new.items ≡ out.old.items ++ arp_text ip mac) }
    ensures front { StartsWith out.new.items out.old.items }
{
    put_with_ip4(b"arp -s ", ip, out)?;
    put(b" ", out)?;
    write_mac(mac, out)
}
