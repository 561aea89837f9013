ghost use Rattle.std.specs.Prelude.{◌≡◌, ◌+◌, ◌∷◌, ◌++◌, false, [], map, length, OnOk};
ghost use Rattle.vn_types.specs.PerStack.{ChangesOnly};
ghost use Rattle.vn_types.specs.declared.interface.IfOf.TheVariants.{Lo0};
ghost use Rattle.vn_rules.specs.Construction.{loopback_ip, loopback_net};
ghost use Rattle.vn_rules.specs.declared.route.TargetOf.TheVariants.{Link};
ghost use Rattle.vn_cells.specs.commands.Jails.{init_entry, rows};
ghost use Rattle.vn_inaddr.specs.Stacks.{of as addresses_of};
ghost use Rattle.vn_kernel.specs.Constructors.{constructors, number_before};
ghost use Rattle.vn_kernel.specs.Construction.{BuildsOnly, Constructs, HaveRun};
ghost use Rattle.vn_kernel.specs.Fields.{fields};
ghost use Rattle.vn_kernel.specs.Worlds.{logged};
ghost use Rattle.vn_route.specs.Stacks.{of as routes_of};
ghost use Rattle.vn_vmove.specs.Parts.{lives};
ghost use Rattle.vn_vmove.specs.Sound.{IsSound};

use crate::constructors::Constructor;
use crate::state::State;
use vn_cells::{Entry, What};
use vn_inaddr::{Addr, Addrs};
use vn_route::Routes;
use vn_types::{If, IfName, Ip4, List, NoMemory, Path, Prefix, Sid};
use vn_vmove::Tables;

/// Constructs the stack of a number that does not live: it counts, has the declared variables, and lo0 with
/// 127.0.0.1/8 and the route of that network. The transcript of its path has the constructors' entries.
pub(crate) fn construct(state: &mut State, path: Path, sid: Sid) -> Result<(), NoMemory>
    requires sound { IsSound state.old.tables }
    requires dead { lives state.old.tables sid.0 ≡ false }
    ensures constructs { OnOk result (Constructs sid.0 state.old.tables state.new.tables) }
    ensures noted { OnOk result (fields state.new ≡ record (fields state.old) {
      logs = logged path (map (init_entry state.old.clock) rows) state.old.logs.entries;
      tables = state.new.tables;
    }) }
{
    let up = state.constructors.up();
    if let Some(entries) = state.logs.get_mut(&path) {
        return run_up(up, &mut state.tables, sid, entries, state.clock);
    }
    let mut entries = List::with_capacity(state.alloc, up.len())?;
    run_up(up, &mut state.tables, sid, &mut entries, state.clock)?;
    state.logs.insert(path, entries)?;
    Ok(())
}

/// Lets the constructors run in the stack of a number that does not live, and each write its entry.
fn run_up(
    up: &[Constructor],
    tables: &mut Tables,
    sid: Sid,
    entries: &mut List<Entry>,
    clock: u64,
) -> Result<(), NoMemory>
    requires order { up.now ≡ constructors }
    requires sound { IsSound tables.old }
    requires dead { lives tables.old sid.0 ≡ false }
    ensures constructs { OnOk result (Constructs sid.0 tables.old tables.new) }
    ensures noted { OnOk result (entries.new ≡ entries.old ++ map (init_entry clock) rows) }
{
    for constructor in up {
        run(*constructor, tables, sid)?;
        entries.push(Entry {
            clock,
            what: What::Init(constructor.name()),
        })?;
    }
    Ok(())
}

/// Lets a constructor run in a stack in which those before it have run.
fn run(constructor: Constructor, tables: &mut Tables, sid: Sid) -> Result<(), NoMemory>
    requires { HaveRun (number_before constructor) sid.0 tables.old }
    ensures built { OnOk result (HaveRun (number_before constructor + 1) sid.0 tables.new) }
    ensures rest { OnOk result (BuildsOnly sid.0 tables.old tables.new) }
{
    match constructor {
        Constructor::VnetData => {
            tables.tallies.make(sid)?;
            tables.vars.instance(sid)
        }
        Constructor::Loif => {
            tables.loops.make(sid)?;
            tables.ifs.attach(sid, If::Lo0, IfName::Lo0)
        }
        Constructor::Inaddr => add_address(&mut tables.addrs, sid),
        Constructor::Route => add_route(&mut tables.routes, sid),
        // A stack that does not live keeps nothing in their tables.
        Constructor::VnetIf
        | Constructor::VnetCloner
        | Constructor::Arp
        | Constructor::Ip
        | Constructor::Icmp
        | Constructor::Udp
        | Constructor::VnetIfReturn => Ok(()),
    }
}

/// Gives lo0 its address.
fn add_address(addrs: &mut Addrs, sid: Sid) -> Result<(), NoMemory>
    requires { addresses_of addrs.old sid.0 ≡ [] }
    ensures added { OnOk result (addresses_of addrs.new sid.0
        ≡ record { on = Lo0; ip = loopback_ip; len = 8 } ∷ []) }
    ensures others { ChangesOnly sid.0 (addresses_of addrs.old) (addresses_of addrs.new) }
{
    let addr = Addr {
        on: If::Lo0,
        ip: Ip4(0x7f00_0001),
        len: 8,
    };
    let added = addrs.add(sid, addr)?;
    added.unwrap();
    Ok(())
}

/// Gives lo0 the route of its network.
fn add_route(routes: &mut Routes, sid: Sid) -> Result<(), NoMemory>
    requires { routes_of routes.old sid.0 ≡ [] }
    ensures added { OnOk result (routes_of routes.new sid.0
        ≡ (record { net = loopback_net; len = 8 }, Link Lo0) ∷ []) }
    ensures others { ChangesOnly sid.0 (routes_of routes.old) (routes_of routes.new) }
{
    let to = Prefix {
        net: Ip4(0x7f00_0000),
        len: 8,
    };
    routes.link(sid, to, If::Lo0)
}
