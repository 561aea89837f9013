ghost use Rattle.std.specs.Prelude.{◌≡◌, ◌++◌, ◌≤◌, codes, OnOk};
ghost use Rattle.std.specs.Io.{StartsWith};
ghost use Rattle.vn_cells.specs.texts.Programs.{ether_text, inet_text, inet_removal_text, interface_text, move_text, pair_text};

use crate::put::{put, put_number, put_prefix};
use vn_types::{IfName, Ip4, Mac, NoMemory, Path, write_ifname, write_ip4, write_mac, write_path};

/// A pair of the lowest free unit is made (epair(4)).
pub(crate) fn put_any_pair(out: &mut Vec<u8>) -> Result<(), NoMemory>
    ensures put { OnOk result (out.new.items ≡ out.old.items ++ codes "ifconfig epair create") }
    ensures front { StartsWith out.new.items out.old.items }
{
    put(b"ifconfig epair create", out)
}

/// A pair of a unit is made.
pub(crate) fn put_pair(unit: u32, out: &mut Vec<u8>) -> Result<(), NoMemory>
    ensures put { OnOk result (out.new.items ≡ out.old.items ++ pair_text unit) }
    ensures front { StartsWith out.new.items out.old.items }
{
    put(b"ifconfig epair", out)?;
    put_number(u64::from(unit), out)?;
    put(b" create", out)
}

/// An interface, and what is asked of it.
pub(crate) fn put_interface(name: IfName, asked: &[u8], out: &mut Vec<u8>) -> Result<(), NoMemory>
    ensures put { OnOk result (out.new.items ≡ out.old.items ++ interface_text name asked.now) }
    ensures front { StartsWith out.new.items out.old.items }
{
    put(b"ifconfig ", out)?;
    write_ifname(name, out)?;
    put(asked, out)
}

/// An interface goes to a jail, or comes from it.
pub(crate) fn put_move(
    name: IfName,
    verb: &[u8],
    path: &Path,
    out: &mut Vec<u8>,
) -> Result<(), NoMemory>
    ensures put { OnOk result (out.new.items ≡ out.old.items ++ move_text name verb.now path.now) }
    ensures front { StartsWith out.new.items out.old.items }
{
    put_interface(name, verb, out)?;
    write_path(path, out)
}

/// An address is added, with its own bits.
pub(crate) fn put_inet(name: IfName, ip: Ip4, len: u8, out: &mut Vec<u8>) -> Result<(), NoMemory>
    ensures put { OnOk result (out.new.items ≡ out.old.items ++ inet_text name ip len) }
    ensures front { StartsWith out.new.items out.old.items }
{
    put_interface(name, b" inet ", out)?;
    put_prefix(ip, len, out)
}

/// An address is removed.
pub(crate) fn put_inet_removal(name: IfName, ip: Ip4, out: &mut Vec<u8>) -> Result<(), NoMemory>
    ensures put { OnOk result (out.new.items ≡ out.old.items ++ inet_removal_text name ip) }
    ensures front { StartsWith out.new.items out.old.items }
{
    put_interface(name, b" inet ", out)?;
    write_ip4(ip, out)?;
    put(b" -alias", out)
}

/// A hardware address is set.
pub(crate) fn put_ether(name: IfName, mac: Mac, out: &mut Vec<u8>) -> Result<(), NoMemory>
    ensures put { OnOk result (out.new.items ≡ out.old.items ++ ether_text name mac) }
    ensures front { StartsWith out.new.items out.old.items }
{
    put_interface(name, b" ether ", out)?;
    write_mac(mac, out)
}
