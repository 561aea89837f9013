//! What stands in a stack, row by row (ifconfig(8), `-a`).
ghost use Rattle.std.specs.Prelude.{◌≡◌, IfOk, OnOk};
ghost use Rattle.vn_types.specs.Interfaces.{half_id_eq};
ghost use Rattle.vn_inaddr.specs.Stacks.{of as addresses_of};
ghost use Rattle.vn_cells.specs.machine.Listings.{if_row, if_rows};
ghost use Rattle.vn_cells.specs.machine.Local.{listing_at};
ghost use Rattle.vn_ipcore.specs.Scenes.{scene_of};
ghost use Rattle.vn_kernel.specs.Fields.{fields};
ghost use Rattle.vn_kernel.specs.Rows.{grouped, kept_on, label_of, AreGrouped, IsAttached};
ghost use Rattle.vn_kernel.specs.Stands.{HasStack, Stands};
ghost use Rattle.vn_kernel.specs.Worlds.{world_of};

use crate::state::State;
use std::alloc::Global;
use std::collections::BTreeMap;
use vn_cells::IfRow;
use vn_ifnet::{Attached, if_number};
use vn_inaddr::{Addr, Addrs};
use vn_types::{If, Ip4, List, NoMemory, Path, Sid};

/// The addresses of a stack under the number of their interface, in the order of their adding.
type Groups = BTreeMap<u64, List<(Ip4, u8)>>;

/// The most octets of a datagram on lo0.
const LO0_MTU: u16 = 16384;

/// The most octets of a datagram on a half (RFC 894).
const HALF_MTU: u16 = 1500;

/// The interfaces at a path, where it lives, in order of attachment.
pub(crate) fn listing(state: &State, path: &Path) -> Result<Option<List<IfRow>>, NoMemory>
    requires { Stands (fields state.now) }
    ensures { IfOk result (λ rows. rows ≡ listing_at (world_of (fields state.now)) path.now) }
{
    match state.jails.alive(path) {
        None => Ok(None),
        Some(sid) => Ok(Some(if_rows(state, sid)?)),
    }
}

/// The interfaces of a living stack, in order of attachment.
fn if_rows(state: &State, sid: Sid) -> Result<List<IfRow>, NoMemory>
    requires { HasStack sid.0 (fields state.now) }
    ensures { IfOk result (λ rows.
        rows ≡ if_rows half_id_eq (label_of (fields state.now)) (scene_of state.now.tables sid.0)) }
{
    let groups = group_addresses(state.alloc, &state.tables.addrs, sid)?;
    let mut rows = List::new(state.alloc);
    let Some(interfaces) = state.tables.ifs.attached(sid) else {
        return Ok(rows);
    };
    for attached in interfaces {
        rows.push(if_row(state, sid, *attached, &groups)?)?;
    }
    Ok(rows)
}

/// The row of an interface.
fn if_row(state: &State, sid: Sid, attached: Attached, groups: &Groups) -> Result<IfRow, NoMemory>
    requires stack { HasStack sid.0 (fields state.now) }
    requires attached { IsAttached (fields state.now) sid.0 attached }
    requires grouped { AreGrouped (addresses_of state.now.tables.addrs sid.0) groups.now.entries }
    ensures { IfOk result (λ row. row
        ≡ if_row half_id_eq (label_of (fields state.now)) (scene_of state.now.tables sid.0) attached.what) }
{
    let addrs = addresses_on(state.alloc, attached.what, groups)?;
    let name = attached.name;
    match attached.what {
        If::Lo0 => Ok(IfRow {
            name,
            up: true,
            mtu: LO0_MTU,
            mac: None,
            addrs,
        }),
        If::Half(half) => Ok(IfRow {
            name,
            up: state.tables.pairs.is_up(half),
            mtu: HALF_MTU,
            mac: Some(state.tables.pairs.mac(half)),
            addrs,
        }),
    }
}

/// The addresses of a stack by interface, found in one pass over all.
fn group_addresses(alloc: Global, addrs: &Addrs, sid: Sid) -> Result<Groups, NoMemory>
    ensures { IfOk result (λ groups. AreGrouped (addresses_of addrs.now sid.0) groups.entries) }
{
    let mut groups = BTreeMap::new(alloc);
    for addr in addrs.list(sid) {
        group(alloc, &mut groups, *addr)?;
    }
    Ok(groups)
}

/// Puts an address behind the others of its interface.
fn group(alloc: Global, groups: &mut Groups, addr: Addr) -> Result<(), NoMemory>
    ensures { OnOk result (groups.new.entries ≡ grouped addr groups.old.entries) }
{
    let number = if_number(addr.on);
    let address = (addr.ip, addr.len);
    if let Some(group) = groups.get_mut(&number) {
        return group.push(address);
    }
    let mut group = List::with_capacity(alloc, 1)?;
    group.push(address)?;
    groups.insert(number, group)?;
    Ok(())
}

/// The addresses of an interface.
fn addresses_on(alloc: Global, on: If, groups: &Groups) -> Result<List<(Ip4, u8)>, NoMemory>
    ensures { IfOk result (λ addresses. addresses ≡ kept_on on groups.now.entries) }
{
    let Some(group) = groups.get(&if_number(on)) else {
        return Ok(List::new(alloc));
    };
    let mut addresses = List::with_capacity(alloc, group.len())?;
    for address in group.as_slice() {
        addresses.push(*address)?;
    }
    Ok(addresses)
}
