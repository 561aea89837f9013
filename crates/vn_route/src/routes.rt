ghost use Rattle.std.specs.Prelude.{◌≡◌, ℕ, true, false, List, [], Some, All, OnOk, OnErr, IfOk, IfSome, IfNone};
ghost use Rattle.std.specs.Option.{option_map};
ghost use Rattle.vn_types.specs.Interfaces.{half_id_eq};
ghost use Rattle.vn_types.specs.PerStack.{ChangesOnly};
ghost use Rattle.vn_types.specs.Refusals.{IsRefusedBy};
ghost use Rattle.vn_types.specs.declared.interface.HalfId.{HalfId};
ghost use Rattle.vn_rules.specs.Networks.{is_network};
ghost use Rattle.vn_rules.specs.Orders.{are_routes};
ghost use Rattle.vn_rules.specs.Routes.{Routed, route_at, nth_route, covers_ip, lookup, covering_link, covers, IsLongest, can_link, after_link, gateway_refusal, after_gateway, delete_refusal, after_delete, after_unlink, after_purge_routes};
ghost use Rattle.vn_route.specs.Lengths.{as_route};
ghost use Rattle.vn_route.specs.Stacks.{of};

use crate::fib::Fib;
use crate::route::Route;
use crate::wanted::Wanted;
use std::alloc::Global;
use std::marker::Model;
use vn_rules::Target;
use vn_types::{Covering, Errno, If, Ip4, NoMemory, PerStack, Prefix, Reply, Sid};

/// The routes of all stacks, seen as a list of stacks by their numbers. Only `link` and `add` take memory.
#[derive(Drop)]
pub struct Routes {
    stacks: PerStack<Fib>,
}

impl Model for Routes {
    ghost Value = { List (List (Routed HalfId)) };

    ghost view = { λ a. a.stacks };
}

impl Routes {
    /// A table in which no stack has a route.
    pub fn new(alloc: Global) -> Result<Routes, NoMemory>
        ensures { IfOk result (λ routes. (q : ℕ) → of routes q ≡ []) }
    {
        Ok(Routes {
            stacks: PerStack::new(alloc),
        })
    }

    /// The route that a stack chooses for an address: the longest that covers it (RFC 1812,
    /// section 5.2.4.3). It costs one look-up for each length, however many routes there are.
    pub fn lookup(&self, sid: Sid, ip: Ip4) -> Option<Route>
        ensures lookup { result ≡ option_map as_route (lookup ip (of self.now sid.0)) }

        // What `lookup` is: there is one that is the longest of those that cover the address, or none covers it.
        ensures longest { IfSome result
            (λ route. IsLongest ip (of self.now sid.0) (route.to, route.target)) }
        ensures none { IfNone result
            (All (λ e. covers_ip ip e ≡ false) (of self.now sid.0)) }
        ensures only { (e : Routed HalfId)
            → IsLongest ip (of self.now sid.0) e → result ≡ Some (as_route e) }
    {
        self.stacks.at(sid)?.longest(Wanted::Any, ip)
    }

    /// The interface of the longest interface route of a stack that covers the address.
    pub fn covering_link(&self, sid: Sid, ip: Ip4) -> Option<If>
        ensures { result ≡ covering_link ip (of self.now sid.0) }
    {
        let route = self.stacks.at(sid)?.longest(Wanted::Links, ip)?;
        Some(route.target.interface())
    }

    /// Whether an interface route of that interface of a stack covers the address.
    pub fn covers(&self, sid: Sid, on: If, ip: Ip4) -> bool
        ensures { result ≡ covers half_id_eq on ip (of self.now sid.0) }
    {
        match self.stacks.at(sid) {
            Some(fib) => fib.covers(on, ip),
            None => false,
        }
    }

    /// Where the route of a stack to a prefix leads.
    fn target(&self, sid: Sid, to: Prefix) -> Option<Target>
        ensures { result ≡ route_at to (of self.now sid.0) }
    {
        self.stacks.at(sid)?.target(to)
    }

    /// Whether an interface route of that interface can lead to the prefix: no other route of the stack does.
    pub fn can_link(&self, sid: Sid, to: Prefix, on: If) -> bool
        requires { is_network to ≡ true }
        ensures { result ≡ can_link half_id_eq to on (of self.now sid.0) }
    {
        match self.stacks.at(sid) {
            Some(fib) => fib.can_link(to, on),
            None => true,
        }
    }

    /// Adds an interface route to a stack, where it is not there yet.
    pub fn link(&mut self, sid: Sid, to: Prefix, on: If) -> Result<(), NoMemory>
        requires network { is_network to ≡ true }
        requires free { can_link half_id_eq to on (of self.old sid.0) ≡ true }
        ensures linked { OnOk result (of self.new sid.0 ≡ after_link to on (of self.old sid.0)) }
        ensures no_memory { OnErr result (of self.new sid.0 ≡ of self.old sid.0) }
        ensures others { ChangesOnly sid.0 (of self.old) (of self.new) }
    {
        self.stacks.at_or_new(sid)?.link(to, on)
    }

    /// Adds a gateway route to a stack (route(8), `add`). Its half is that of the longest interface route
    /// that covers the gateway.
    pub fn add(&mut self, sid: Sid, to: Prefix, via: Ip4) -> Reply<()>
        requires { is_network to ≡ true }
        ensures answer { IfOk result (IsRefusedBy (gateway_refusal to via (of self.old sid.0))) }
        ensures added { IfOk result (λ answer. OnOk answer (of self.new sid.0
            ≡ after_gateway to via (of self.old sid.0))) }
        ensures refused { IfOk result
            (λ answer. OnErr answer (of self.new sid.0 ≡ of self.old sid.0)) }
        ensures no_memory { OnErr result (of self.new sid.0 ≡ of self.old sid.0) }
        ensures others { ChangesOnly sid.0 (of self.old) (of self.new) }
    {
        if self.target(sid, to).is_some() {
            return Ok(Err(Errno::Exist));
        }
        let Some(If::Half(half)) = self.covering_link(sid, via) else {
            return Ok(Err(Errno::NetUnreach));
        };
        self.stacks.at_or_new(sid)?.add(to, via, half)?;
        Ok(Ok(()))
    }

    /// Deletes a gateway route of a stack (route(8), `delete`).
    pub fn delete(&mut self, sid: Sid, to: Prefix) -> Result<(), Errno>
        requires { is_network to ≡ true }
        ensures answer { IsRefusedBy (delete_refusal to (of self.old sid.0)) result }
        ensures deleted { OnOk result (of self.new sid.0 ≡ after_delete to (of self.old sid.0)) }
        ensures refused { OnErr result (of self.new sid.0 ≡ of self.old sid.0) }
        ensures others { ChangesOnly sid.0 (of self.old) (of self.new) }
    {
        let Some(Target::Gateway { via: _, on: _ }) = self.target(sid, to) else {
            return Err(Errno::Srch);
        };
        if let Some(fib) = self.stacks.at_mut(sid) {
            fib.delete(to);
        }
        Ok(())
    }

    /// Takes out an interface route of a stack, and with it the gateway routes on the interface whose
    /// gateway none of its interface routes covers any more.
    pub fn unlink(&mut self, sid: Sid, to: Prefix, on: If)
        requires { is_network to ≡ true }
        ensures unlinked { of self.new sid.0
            ≡ after_unlink half_id_eq to on (of self.old sid.0) }
        ensures others { ChangesOnly sid.0 (of self.old) (of self.new) }
    {
        if let Some(fib) = self.stacks.at_mut(sid) {
            fib.unlink(to, on);
        }
    }

    /// Takes out all routes of a stack that leave by the interface.
    pub fn purge_interface(&mut self, sid: Sid, on: If)
        ensures purged { of self.new sid.0 ≡ after_purge_routes half_id_eq on (of self.old sid.0) }
        ensures others { ChangesOnly sid.0 (of self.old) (of self.new) }
    {
        if let Some(fib) = self.stacks.at_mut(sid) {
            fib.purge(on);
        }
    }

    /// The route of a stack at a place, by network and then by length, counted from 0. There is none past
    /// the end.
    pub fn at(&self, sid: Sid, place: u64) -> Option<Route>
        ensures { result ≡ option_map as_route (nth_route place (of self.now sid.0)) }
    {
        self.stacks.at(sid)?.at(place)
    }
}

impl Covering for Routes {
    ghost use Rattle.vn_types.specs.Interfaces.{half_id_eq};
    ghost use Rattle.vn_rules.specs.Routes.{covers};
    ghost use Rattle.vn_route.specs.Stacks.{of};

    ghost covers = { λ routes sid on ip. covers half_id_eq on ip (of routes sid.0) };

    fn covers(&self, sid: Sid, on: If, ip: Ip4) -> bool {
        Routes::covers(self, sid, on, ip)
    }
}
