ghost use Rattle.std.specs.Prelude.{◌≡◌, true};
ghost use Rattle.std.specs.Option.{option_map};
ghost use Rattle.vn_rules.specs.Orders.{are_routes};
ghost use Rattle.vn_rules.specs.Routes.{route_at, longest_among};
ghost use Rattle.vn_route.specs.Lengths.{as_route, of_length};
ghost use Rattle.vn_route.specs.Wanted.{is_wanted};

use crate::network::Network;
use crate::route::Route;
use crate::wanted::Wanted;
use std::collections::BTreeMap;
use vn_rules::{Target, network_of};
use vn_types::{Ip4, Prefix};

/// The longest wanted route that covers the address, by one look-up for each length.
pub(crate) fn longest(routes: &BTreeMap<Network, Target>, wanted: Wanted, ip: Ip4) -> Option<Route>
    requires { are_routes routes.now.entries ≡ true }
    ensures { result
        ≡ option_map as_route (longest_among (is_wanted wanted) ip routes.now.entries) }
{
    let mut len = 33;
    while len > 0 {
        len -= 1;
        if let Some(route) = of_length(routes, wanted, ip, len) {
            return Some(route);
        }
    }
    None
}

/// The wanted route to the network of that length in which the address lies.
fn of_length(routes: &BTreeMap<Network, Target>, wanted: Wanted, ip: Ip4, len: u8) -> Option<Route>
    ensures { result
        ≡ option_map as_route (of_length (is_wanted wanted) ip routes.now.entries len) }
{
    let to = Prefix {
        net: network_of(ip, len),
        len,
    };
    let target = target(routes, to)?;
    if wanted.takes(target) {
        Some(Route { to, target })
    } else {
        None
    }
}

/// Where the route to a prefix leads.
pub(crate) fn target(routes: &BTreeMap<Network, Target>, to: Prefix) -> Option<Target>
    ensures { result ≡ route_at to routes.now.entries }
{
    routes.get(&Network::of(to)).copied()
}
