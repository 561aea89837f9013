ghost use Rattle.std.specs.Prelude.{◌≡◌, ◌≤◌, true, [], Some, OnOk, OnErr};
ghost use Rattle.std.specs.BTreeMap.{insert_entry};
ghost use Rattle.std.specs.Option.{option_map};
ghost use Rattle.vn_types.specs.Interfaces.{half_id_eq};
ghost use Rattle.vn_rules.specs.declared.route.TargetOf.TheVariants.{Gateway};
ghost use Rattle.vn_rules.specs.Networks.{is_network};
ghost use Rattle.vn_rules.specs.Orders.{are_routes};
ghost use Rattle.vn_rules.specs.Routes.{prefix_cmp, route_at, nth_route, longest_among, covers, can_link, after_link, with_gateway, after_delete, after_unlink, after_purge_routes};
ghost use Rattle.vn_route.specs.Lengths.{as_route};
ghost use Rattle.vn_route.specs.Wanted.{is_wanted};

use crate::network::Network;
use crate::route::Route;
use crate::search::{longest, target};
use crate::stranded::{covers, drop_link, drop_stranded};
use crate::wanted::{Wanted, is_link_on};
use std::alloc::Global;
use std::collections::BTreeMap;
use std::marker::Model;
use vn_rules::Target;
use vn_types::{Empty, HalfId, If, Ip4, NoMemory, Prefix};

/// The routes of one stack, by network and then by length (a forwarding information base).
#[derive(Drop)]
pub(crate) struct Fib {
    routes: BTreeMap<Network, Target>,
}

impl Model for Fib {
    ghost use Rattle.std.specs.Prelude.{◌≡◌, true, List};
    ghost use Rattle.vn_types.specs.declared.interface.HalfId.{HalfId};
    ghost use Rattle.vn_rules.specs.Orders.{are_routes};
    ghost use Rattle.vn_rules.specs.Routes.{Routed};

    ghost Value = { List (Routed HalfId) };

    ghost view = { λ a. a.routes.entries };

    // Each leads to a network, and no two lead to one.
    ghost invariant = { λ a. are_routes a.routes.entries ≡ true };
}

impl Empty for Fib {
    ghost empty = { [] };

    fn empty(alloc: Global) -> Fib {
        Fib {
            routes: BTreeMap::new(alloc),
        }
    }
}

impl Fib {
    /// Where the route to a prefix leads.
    pub(crate) fn target(&self, to: Prefix) -> Option<Target>
        ensures { result ≡ route_at to self.now }
    {
        target(&self.routes, to)
    }

    /// The longest wanted route that covers the address.
    pub(crate) fn longest(&self, wanted: Wanted, ip: Ip4) -> Option<Route>
        ensures longest { result
            ≡ option_map as_route (longest_among (is_wanted wanted) ip self.now) }
        ensures right { are_routes self.now ≡ true }
    {
        longest(&self.routes, wanted, ip)
    }

    /// Whether an interface route of the interface covers the address.
    pub(crate) fn covers(&self, on: If, ip: Ip4) -> bool
        ensures { result ≡ covers half_id_eq on ip self.now }
    {
        covers(&self.routes, on, ip)
    }

    pub(crate) fn can_link(&self, to: Prefix, on: If) -> bool
        ensures { result ≡ can_link half_id_eq to on self.now }
    {
        match self.target(to) {
            Some(target) => is_link_on(target, on),
            None => true,
        }
    }

    pub(crate) fn link(&mut self, to: Prefix, on: If) -> Result<(), NoMemory>
        requires { is_network to ≡ true }
        ensures linked { OnOk result (self.new ≡ after_link to on self.old) }
        ensures kept { OnErr result (self.new ≡ self.old) }
    {
        self.put(to, Target::Link(on))
    }

    pub(crate) fn add(&mut self, to: Prefix, via: Ip4, on: HalfId) -> Result<(), NoMemory>
        requires { is_network to ≡ true }
        ensures added { OnOk result (self.new ≡ with_gateway to via (Some on) self.old) }
        ensures kept { OnErr result (self.new ≡ self.old) }
    {
        self.put(to, Target::Gateway { via, on })
    }

    /// Puts a route in, in the place of another one to the prefix.
    fn put(&mut self, to: Prefix, target: Target) -> Result<(), NoMemory>
        requires { is_network to ≡ true }
        ensures put { OnOk result (self.new ≡ insert_entry prefix_cmp self.old to target) }
        ensures kept { OnErr result (self.new ≡ self.old) }
    {
        self.routes.insert(Network::of(to), target)?;
        Ok(())
    }

    pub(crate) fn delete(&mut self, to: Prefix)
        ensures { self.new ≡ after_delete to self.old }
    {
        self.routes.remove(&Network::of(to));
    }

    pub(crate) fn unlink(&mut self, to: Prefix, on: If)
        ensures { self.new ≡ after_unlink half_id_eq to on self.old }
    {
        drop_link(&mut self.routes, to, on);
        drop_stranded(&mut self.routes, on);
    }

    pub(crate) fn purge(&mut self, on: If)
        ensures { self.new ≡ after_purge_routes half_id_eq on self.old }
    {
        self.routes.retain(|_, target| !target.is_on(on));
    }

    /// The route at a place in the order of the prefixes, counted from 0.
    pub(crate) fn at(&self, place: u64) -> Option<Route>
        ensures { result ≡ option_map as_route (nth_route place self.now) }
    {
        let (network, target) = self.routes.iter().nth(place as usize)?;
        Some(Route {
            to: network.prefix(),
            target: *target,
        })
    }
}
