ghost use Rattle.std.specs.Prelude.{◌≡◌, ◌++◌, ◌∷◌, codes, decimal, OnOk, OnErr};
ghost use Rattle.std.specs.Io.{StartsWith};
ghost use Rattle.std.specs.List.{flat_map};
ghost use Rattle.vn_types.specs.AddressWords.{ip4_text};
ghost use Rattle.vn_types.specs.InterfaceWords.{ifname_text};
ghost use Rattle.vn_types.specs.Octets.{space};
ghost use Rattle.vn_cells.specs.machine.Listings.{address_part, arp_line, ether_part, if_line, mac_or_dash, route_line, state_text, target_text, up_text};

use crate::put::{put, put_number, put_prefix};
use vn_cells::{ArpRow, IfRow, RouteRow, RowTarget};
use vn_rules::ArpState;
use vn_types::{IfName, Ip4, Mac, NoMemory, restore, write_ifname, write_ip4, write_mac};

/// Puts the line of an interface at the end of the output, without the line's end (ifconfig(8), `-a`).
pub fn write_if_row(row: &IfRow, out: &mut Vec<u8>) -> Result<(), NoMemory>
    ensures written { OnOk result (out.new.items ≡ out.old.items ++ if_line row.now) }
    ensures kept { OnErr result (out.new.items ≡ out.old.items) }
{
    let start = out.len();
    restore(put_if_row(row, out), start, out)
}

/// Puts the line of a route at the end of the output, without the line's end (netstat(1), `-rn`).
pub fn write_route_row(row: &RouteRow, out: &mut Vec<u8>) -> Result<(), NoMemory>
    ensures written { OnOk result (out.new.items ≡ out.old.items ++ route_line row.now) }
    ensures kept { OnErr result (out.new.items ≡ out.old.items) }
{
    let start = out.len();
    restore(put_route_row(row, out), start, out)
}

/// Puts the line of a neighbour's address at the end of the output, without the line's end (arp(8), `-an`).
pub fn write_arp_row(row: &ArpRow, out: &mut Vec<u8>) -> Result<(), NoMemory>
    ensures written { OnOk result (out.new.items ≡ out.old.items ++ arp_line row.now) }
    ensures kept { OnErr result (out.new.items ≡ out.old.items) }
{
    let start = out.len();
    restore(put_arp_row(row, out), start, out)
}

// ---- interfaces

#[tactic(auto, unfolding(vn_cells::specs::machine::Listings::if_line))]
pub(crate) fn put_if_row(row: &IfRow, out: &mut Vec<u8>) -> Result<(), NoMemory>
    ensures put { OnOk result (out.new.items ≡ out.old.items ++ if_line row.now) }
    ensures front { StartsWith out.new.items out.old.items }
{
    put_link(row.name, row.up, row.mtu, out)?;
    put_ether(row.mac, out)?;
    put_addresses(row.addrs.as_slice(), out)
}

/// The name of an interface, whether it is up, and the most octets of a datagram on it.
fn put_link(name: IfName, up: bool, mtu: u16, out: &mut Vec<u8>) -> Result<(), NoMemory>
    ensures put { OnOk result (out.new.items
        ≡ out.old.items ++ ifname_text name ++ space ∷ up_text up ++ codes " mtu " ++ decimal mtu) }
    ensures front { StartsWith out.new.items out.old.items }
{
    write_ifname(name, out)?;
    put(up_word(up), out)?;
    put(b" mtu ", out)?;
    put_number(u64::from(mtu), out)
}

fn up_word(up: bool) -> &'static [u8]
    ensures { result.now ≡ space ∷ up_text up }
{
    if up {
        return b" up";
    }
    b" down"
}

/// A half's hardware address.
fn put_ether(mac: Option<Mac>, out: &mut Vec<u8>) -> Result<(), NoMemory>
    ensures put { OnOk result (out.new.items ≡ out.old.items ++ ether_part mac) }
    ensures front { StartsWith out.new.items out.old.items }
{
    let Some(mac) = mac else {
        return Ok(());
    };
    put(b" ether ", out)?;
    write_mac(mac, out)
}

fn put_addresses(addresses: &[(Ip4, u8)], out: &mut Vec<u8>) -> Result<(), NoMemory>
    ensures put { OnOk result (out.new.items
        ≡ out.old.items ++ flat_map address_part addresses.now) }
    ensures front { StartsWith out.new.items out.old.items }
{
    for address in addresses {
        put_address(*address, out)?;
    }
    Ok(())
}

fn put_address(address: (Ip4, u8), out: &mut Vec<u8>) -> Result<(), NoMemory>
    ensures put { OnOk result (out.new.items ≡ out.old.items ++ address_part address) }
    ensures front { StartsWith out.new.items out.old.items }
{
    put(b" ", out)?;
    put_prefix(address.0, address.1, out)
}

// ---- routes

#[tactic(auto, unfolding(vn_cells::specs::machine::Listings::route_line))]
fn put_route_row(row: &RouteRow, out: &mut Vec<u8>) -> Result<(), NoMemory>
    ensures put { OnOk result (out.new.items ≡ out.old.items ++ route_line row.now) }
    ensures front { StartsWith out.new.items out.old.items }
{
    put_prefix(row.to.net, row.to.len, out)?;
    put(b" ", out)?;
    put_target(row.target, out)
}

/// To a network on an interface, or by a gateway beyond one.
fn put_target(target: RowTarget, out: &mut Vec<u8>) -> Result<(), NoMemory>
    ensures put { OnOk result (out.new.items ≡ out.old.items ++ target_text target) }
    ensures front { StartsWith out.new.items out.old.items }
{
    match target {
        RowTarget::Link(on) => {
            put(b"link ", out)?;
            write_ifname(on, out)
        }
        RowTarget::Gateway { via, on } => {
            write_ip4(via, out)?;
            put(b" ", out)?;
            write_ifname(on, out)
        }
    }
}

// ---- neighbours' addresses

#[tactic(auto, unfolding(vn_cells::specs::machine::Listings::arp_line))]
fn put_arp_row(row: &ArpRow, out: &mut Vec<u8>) -> Result<(), NoMemory>
    ensures put { OnOk result (out.new.items ≡ out.old.items ++ arp_line row.now) }
    ensures front { StartsWith out.new.items out.old.items }
{
    put_neighbour(row.ip, row.mac, out)?;
    put(b" ", out)?;
    write_ifname(row.on, out)?;
    put(state_word(row.state), out)
}

/// The address, and the hardware address that is known of it.
fn put_neighbour(ip: Ip4, mac: Option<Mac>, out: &mut Vec<u8>) -> Result<(), NoMemory>
    ensures put { OnOk result (out.new.items ≡ out.old.items ++ ip4_text ip ++ space ∷ mac_or_dash mac) }
    ensures front { StartsWith out.new.items out.old.items }
{
    write_ip4(ip, out)?;
    put(b" ", out)?;
    match mac {
        Some(mac) => write_mac(mac, out),
        None => put(b"-", out),
    }
}

/// How far the resolution has come, with a space before it.
fn state_word(state: ArpState) -> &'static [u8]
    ensures { result.now ≡ space ∷ state_text state }
{
    match state {
        ArpState::Incomplete => b" incomplete",
        ArpState::Learnt => b" learnt",
        ArpState::Static => b" static",
        ArpState::Down => b" down",
    }
}
