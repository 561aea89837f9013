ghost use Rattle.std.specs.Prelude.{◌≡◌, ◌&&◌, true};
ghost use Rattle.std.specs.List.{find};
ghost use Rattle.std.specs.Option.{option_map};
ghost use Rattle.vn_types.specs.Interfaces.{half_id_eq};
ghost use Rattle.vn_rules.specs.Orders.{are_routes};
ghost use Rattle.vn_rules.specs.Routes.{covers, is_stranded, without_link, without_stranded};
ghost use Rattle.vn_route.specs.Behind.{bound_behind, is_behind};

use crate::network::Network;
use crate::search::longest;
use crate::wanted::{Wanted, is_link_on};
use std::collections::BTreeMap;
use std::ops::Bound;
use vn_rules::Target;
use vn_types::{If, Ip4, Prefix};

/// Whether an interface route of the interface covers the address.
pub(crate) fn covers(routes: &BTreeMap<Network, Target>, on: If, ip: Ip4) -> bool
    requires { are_routes routes.now.entries ≡ true }
    ensures { result ≡ covers half_id_eq on ip routes.now.entries }
{
    longest(routes, Wanted::LinksOn(on), ip).is_some()
}

/// Takes out that interface route of the interface.
pub(crate) fn drop_link(routes: &mut BTreeMap<Network, Target>, to: Prefix, on: If)
    ensures { routes.new.entries ≡ without_link half_id_eq to on routes.old.entries }
{
    let to = Network::of(to);
    routes.retain(|network, target| !(to == *network && is_link_on(*target, on)));
}

/// Takes out the gateway routes on the interface whose gateway none of its interface routes covers. It looks
/// at each route once.
pub(crate) fn drop_stranded(routes: &mut BTreeMap<Network, Target>, on: If)
    requires { are_routes routes.old.entries ≡ true }
    ensures { routes.new.entries ≡ without_stranded half_id_eq on routes.old.entries }
{
    let mut last = None;
    while let Some(to) = next_stranded(routes, on, last) {
        routes.remove(&Network::of(to));
        last = Some(to);
    }
}

/// The first prefix behind the last one to which such a route leads.
fn next_stranded(routes: &BTreeMap<Network, Target>, on: If, last: Option<Prefix>) -> Option<Prefix>
    requires { are_routes routes.now.entries ≡ true }
    ensures { result ≡ option_map (λ e. e.0) (find
        (λ e. is_behind last e.0 && is_stranded half_id_eq on routes.now.entries e.1)
        routes.now.entries) }
{
    let (network, _) = routes
        .range((bound_behind(last), Bound::Unbounded))
        .find(|(_, target)| is_stranded(routes, on, **target))?;
    Some(network.prefix())
}

/// Where the networks behind the last prefix begin.
fn bound_behind(last: Option<Prefix>) -> Bound<Network>
    ensures { result ≡ bound_behind last }
{
    match last {
        Some(prefix) => Bound::Excluded(Network::of(prefix)),
        None => Bound::Unbounded,
    }
}

/// Whether it is a gateway route on the interface whose gateway no interface route of it covers.
fn is_stranded(routes: &BTreeMap<Network, Target>, on: If, target: Target) -> bool
    requires { are_routes routes.now.entries ≡ true }
    ensures { result ≡ is_stranded half_id_eq on routes.now.entries target }
{
    match target {
        Target::Link(_) => false,
        Target::Gateway { via, on: _ } => target.is_on(on)
            && !covers(routes, target.interface(), via),
    }
}
