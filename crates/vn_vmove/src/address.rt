ghost use Rattle.std.specs.Prelude.{◌≡◌, ◌≤◌, true};
ghost use Rattle.std.specs.List.{list_any};
ghost use Rattle.vn_types.specs.Interfaces.{half_id_eq};
ghost use Rattle.vn_types.specs.PerStack.{ChangesOnly};
ghost use Rattle.vn_types.specs.Refusals.{IsRefusedBy, first_refusal};
ghost use Rattle.vn_rules.specs.AddressCommands.{alias_refusals};
ghost use Rattle.vn_rules.specs.Addresses.{is_address_of};
ghost use Rattle.vn_rules.specs.Arp.{without_entries};
ghost use Rattle.vn_rules.specs.Orders.{are_addresses};
ghost use Rattle.vn_rules.specs.Purge.{dropped, is_uncovered, routes_without};
ghost use Rattle.vn_arp.specs.Kept.{Follows, KnowsArms};
ghost use Rattle.vn_arp.specs.Stacks.{of as arp_of};
ghost use Rattle.vn_callout.specs.Stacks.{of as timers_of};
ghost use Rattle.vn_inaddr.specs.Stacks.{of as addresses_of};
ghost use Rattle.vn_route.specs.Stacks.{of as routes_of};
ghost use Rattle.vn_vmove.specs.Leaving.{KeepsRest, KnowsTimers, Leaves, unfounded};
ghost use Rattle.vn_vmove.specs.Nets.{Becomes, net_of, on_stack};
ghost use Rattle.vn_vmove.specs.Parts.{parts};
ghost use Rattle.vn_vmove.specs.Sound.{IsSound};

use crate::tables::Tables;
use vn_arp::ArpTable;
use vn_callout::Wheel;
use vn_inaddr::{Addr, Addrs};
use vn_route::Routes;
use vn_rules::lies_in;
use vn_types::{Errno, If, Ip4, Prefix, Sid};

/// Removes an address of an interface (ifconfig(8), `-alias`), with what stood on it alone: its interface
/// route and the gateway routes beyond, the ARP entries that no route covers any more, and the pings that
/// were sent from it. Sockets lose it.
pub fn drop_address(tables: &mut Tables, sid: Sid, on: If, ip: Ip4) -> Result<(), Errno>
    requires { IsSound tables.old }
    ensures answer { IsRefusedBy (first_refusal (alias_refusals half_id_eq on ip (parts tables.old sid.0))) result }
    ensures dropped { Becomes (on_stack sid.0 (dropped half_id_eq on ip) (net_of tables.old)) tables.old tables.new }
    ensures rest { KeepsRest tables.old tables.new }
    ensures sound { IsSound tables.new }
{
    let addr = match tables.addrs.remove(sid, on, ip) {
        Ok(addr) => addr,
        Err(errno) => return Err(errno),
    };
    forget_address(tables, sid, addr);
    Ok(())
}

/// Takes out what stood on an address alone, where the address itself is gone already.
fn forget_address(tables: &mut Tables, sid: Sid, addr: Addr)
    requires length { addr.len ≤ 32 }
    requires addresses { are_addresses (parts tables.old sid.0).addresses ≡ true }
    requires timers { KnowsTimers tables.old sid.0 }
    ensures { Leaves (unfounded addr) sid.0 tables.old tables.new }
{
    unlink(&tables.addrs, &mut tables.routes, sid, addr);
    tables.socks.purge_address(sid, addr.ip);
    tables.pings.purge_source(sid, addr.ip, &mut tables.wheel);
    forget_neighbours(
        &mut tables.arp,
        sid,
        addr.on,
        &tables.routes,
        &mut tables.wheel,
    );
}

/// Takes out the interface route of an address that is gone, and the gateway routes beyond, unless another
/// address of the interface has that network.
fn unlink(addrs: &Addrs, routes: &mut Routes, sid: Sid, addr: Addr)
    requires length { addr.len ≤ 32 }
    requires addresses { are_addresses (addresses_of addrs.now sid.0) ≡ true }
    ensures left { routes_of routes.new sid.0
        ≡ routes_without half_id_eq addr (addresses_of addrs.now sid.0) (routes_of routes.old sid.0) }
    ensures others { ChangesOnly sid.0 (routes_of routes.old) (routes_of routes.new) }
{
    let to = addr.prefix();
    if has_network(addrs, sid, addr.on, to) {
        return;
    }
    routes.unlink(sid, to, addr.on);
}

/// Whether an address of the interface is of the network.
fn has_network(addrs: &Addrs, sid: Sid, on: If, to: Prefix) -> bool
    requires { are_addresses (addresses_of addrs.now sid.0) ≡ true }
    ensures { result ≡ list_any (is_address_of half_id_eq on to) (addresses_of addrs.now sid.0) }
{
    let mut place = 0;
    while let Some(addr) = addrs.at(sid, place) {
        if is_address_of(addr, on, to) {
            return true;
        }
        place += 1;
    }
    false
}

/// Whether it is an address of the interface, of that network.
fn is_address_of(addr: Addr, on: If, to: Prefix) -> bool
    ensures { result ≡ is_address_of half_id_eq on to addr }
{
    addr.is_on(on) && addr.len == to.len && lies_in(addr.ip, to)
}

/// Takes out the ARP entries of an interface that none of its interface routes covers any more.
fn forget_neighbours(arp: &mut ArpTable, sid: Sid, on: If, routes: &Routes, wheel: &mut Wheel)
    requires { KnowsArms half_id_eq (arp_of arp.old sid.0) (timers_of wheel.old sid.0) }
    ensures left { Follows (without_entries (is_uncovered half_id_eq on (routes_of routes.now sid.0)))
        (arp_of arp.old sid.0) (timers_of wheel.old sid.0) (arp_of arp.new sid.0) (timers_of wheel.new sid.0) }
    ensures knows { KnowsArms half_id_eq (arp_of arp.new sid.0) (timers_of wheel.new sid.0) }
    ensures others { ChangesOnly sid.0 (arp_of arp.old) (arp_of arp.new) }
    ensures other_timers { ChangesOnly sid.0 (timers_of wheel.old) (timers_of wheel.new) }
{
    let If::Half(half) = on else {
        return;
    };
    arp.purge_uncovered(sid, half, routes, wheel);
}
