ghost use Rattle.std.specs.Prelude.{◌≡◌, true};
ghost use Rattle.vn_kernel.specs.Destruction.{Destructs};
ghost use Rattle.vn_kernel.specs.Removal.{IsAlone};
ghost use Rattle.vn_vmove.specs.Parts.{lives};
ghost use Rattle.vn_vmove.specs.Sound.{IsSound};

use vn_types::{If, Sid};
use vn_vmove::Tables;

/// Destructs a living stack in which nothing but lo0 stands and that is the home of no pair: nothing is kept
/// for it then. Takes no memory.
pub(crate) fn destruct(tables: &mut Tables, sid: Sid)
    requires sound { IsSound tables.old }
    requires alive { lives tables.old sid.0 ≡ true }
    requires alone { IsAlone sid.0 tables.old }
    ensures { Destructs sid.0 tables.old tables.new }
{
    tables.pings.purge_stack(sid, &mut tables.wheel);
    tables.wheel.stop_of_stack(sid);
    tables.socks.purge_stack(sid);
    tables.routes.purge_interface(sid, If::Lo0);
    tables.addrs.purge_interface(sid, If::Lo0);
    tables.ifs.detach(sid, If::Lo0);
    tables.loops.remove(sid);
    tables.vars.drop_instance(sid);
    tables.tallies.remove(sid);
}
