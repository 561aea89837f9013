ghost use Rattle.std.specs.Prelude.{◌≡◌, ℕ, [], None, false, IfOk};
ghost use Rattle.vn_rules.specs.Pings.{no_pings};
ghost use Rattle.vn_rules.specs.Timers.{no_timers};
ghost use Rattle.vn_arp.specs.Stacks.{of as arp_of};
ghost use Rattle.vn_callout.specs.Stacks.{of as timers_of};
ghost use Rattle.vn_icmp.specs.Stacks.{of as pings_of};
ghost use Rattle.vn_ifnet.specs.Stacks.{nothing, of as held_of};
ghost use Rattle.vn_inaddr.specs.Stacks.{of as addresses_of};
ghost use Rattle.vn_loop.specs.Queues.{of as loopback_of};
ghost use Rattle.vn_route.specs.Stacks.{of as routes_of};
ghost use Rattle.vn_sock.specs.Stacks.{of as sockets_of};
ghost use Rattle.vn_vmove.specs.Parts.{lives};
ghost use Rattle.vn_vmove.specs.Sound.{IsSound};

use crate::tallies::Tallies;
use std::alloc::Global;
use vn_arp::ArpTable;
use vn_callout::Wheel;
use vn_epair::Pairs;
use vn_icmp::Pings;
use vn_ifnet::IfTable;
use vn_inaddr::Addrs;
use vn_loop::Loops;
use vn_route::Routes;
use vn_sock::Socks;
use vn_store::Registry;
use vn_types::NoMemory;

/// All that is kept of stacks and pairs, by their numbers.
#[derive(Drop)]
pub struct Tables {
    pub ifs: IfTable,
    pub pairs: Pairs,
    pub loops: Loops,
    pub addrs: Addrs,
    pub routes: Routes,
    pub arp: ArpTable,
    pub pings: Pings,
    pub socks: Socks,
    pub wheel: Wheel,
    pub vars: Registry,
    pub tallies: Tallies,
}

impl Tables {
    /// Tables in which no stack lives, with the declared variables.
    pub fn new(alloc: Global) -> Result<Tables, NoMemory>
        ensures lives { IfOk result (λ t. (q : ℕ) → lives t q ≡ false) }
        ensures pairs { IfOk result (λ t. t.pairs ≡ []) }
        ensures sound { IfOk result IsSound }
    {
        let links = links(alloc)?;
        let networks = networks(alloc)?;
        let ends = ends(alloc)?;
        let vars = Registry::declared(alloc)?;
        let tallies = Tallies::new(alloc)?;
        let (ifs, pairs, loops) = links;
        let (addrs, routes, arp) = networks;
        let (pings, socks, wheel) = ends;
        Ok(Tables {
            ifs,
            pairs,
            loops,
            addrs,
            routes,
            arp,
            pings,
            socks,
            wheel,
            vars,
            tallies,
        })
    }
}

/// No interfaces, pairs and loopback queues.
fn links(alloc: Global) -> Result<(IfTable, Pairs, Loops), NoMemory>
    ensures ifs { IfOk result (λ t. (q : ℕ) → held_of t.0 q ≡ nothing) }
    ensures pairs { IfOk result (λ t. t.1 ≡ []) }
    ensures loops { IfOk result (λ t. (q : ℕ) → loopback_of t.2 q ≡ None) }
{
    let ifs = IfTable::new(alloc)?;
    let pairs = Pairs::new(alloc)?;
    let loops = Loops::new(alloc)?;
    Ok((ifs, pairs, loops))
}

/// No addresses, routes and ARP entries.
fn networks(alloc: Global) -> Result<(Addrs, Routes, ArpTable), NoMemory>
    ensures addrs { IfOk result (λ t. (q : ℕ) → addresses_of t.0 q ≡ []) }
    ensures routes { IfOk result (λ t. (q : ℕ) → routes_of t.1 q ≡ []) }
    ensures arp { IfOk result (λ t. (q : ℕ) → arp_of t.2 q ≡ []) }
{
    let addrs = Addrs::new(alloc)?;
    let routes = Routes::new(alloc)?;
    let arp = ArpTable::new(alloc)?;
    Ok((addrs, routes, arp))
}

/// No awaited pings, sockets and timers.
fn ends(alloc: Global) -> Result<(Pings, Socks, Wheel), NoMemory>
    ensures pings { IfOk result (λ t. (q : ℕ) → pings_of t.0 q ≡ no_pings) }
    ensures socks { IfOk result (λ t. (q : ℕ) → sockets_of t.1 q ≡ []) }
    ensures wheel { IfOk result (λ t. (q : ℕ) → timers_of t.2 q ≡ no_timers) }
{
    let pings = Pings::new(alloc)?;
    let socks = Socks::new(alloc)?;
    let wheel = Wheel::new(alloc)?;
    Ok((pings, socks, wheel))
}
