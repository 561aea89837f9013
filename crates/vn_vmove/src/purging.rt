ghost use Rattle.vn_types.specs.Interfaces.{half_id_eq};
ghost use Rattle.vn_rules.specs.Purge.{purged, without_names};
ghost use Rattle.vn_vmove.specs.Leaving.{KeepsRest, KnowsTimers, Leaves, unaddressed};
ghost use Rattle.vn_vmove.specs.Nets.{Becomes, net_of, on_stack};
ghost use Rattle.vn_vmove.specs.Sound.{IsSound};

use crate::address::drop_address;
use crate::tables::Tables;
use vn_types::{HalfId, If, Sid};

/// Takes out of a stack all that names a half: its addresses one after another, each with what stood on it,
/// and then the other routes, ARP entries, awaited pings and queued datagrams.
pub fn purge(tables: &mut Tables, sid: Sid, half: HalfId)
    requires { IsSound tables.old }
    ensures purged { Becomes (on_stack sid.0 (purged half_id_eq half) (net_of tables.old)) tables.old tables.new }
    ensures rest { KeepsRest tables.old tables.new }
    ensures sound { IsSound tables.new }
{
    drop_addresses(tables, sid, half);
    forget_half(tables, sid, half);
}

/// Removes the addresses of a half one after another.
fn drop_addresses(tables: &mut Tables, sid: Sid, half: HalfId)
    requires { IsSound tables.old }
    ensures { Leaves (unaddressed half) sid.0 tables.old tables.new }
{
    let on = If::Half(half);
    while let Some(ip) = tables.addrs.first(sid, on) {
        drop_address(tables, sid, on, ip).unwrap();
    }
}

/// Takes out the routes, ARP entries, awaited pings and queued datagrams that name a half.
fn forget_half(tables: &mut Tables, sid: Sid, half: HalfId)
    requires { KnowsTimers tables.old sid.0 }
    ensures { Leaves (without_names half_id_eq half) sid.0 tables.old tables.new }
{
    let on = If::Half(half);
    tables.routes.purge_interface(sid, on);
    tables.socks.purge_interface(sid, on);
    tables.pings.purge_interface(sid, on, &mut tables.wheel);
    tables.arp.purge_interface(sid, half, &mut tables.wheel);
}
