ghost use Rattle.std.specs.Prelude.{◌≡◌, if◌then◌else◌};
ghost use Rattle.vn_types.specs.PerStack.{ChangesOnly};
ghost use Rattle.vn_callout.specs.Stacks.{of as timers_of};
ghost use Rattle.vn_arp.specs.Kept.{without_gone, without_numbered};

use crate::gone::Gone;
use crate::neighbour::{Neighbour, stop_timer};
use vn_callout::Wheel;
use vn_types::Sid;

/// Stops the timers of the entries that go.
pub(crate) fn stop_timers<G: Gone>(neighbours: &[Neighbour], gone: &G, sid: Sid, wheel: &mut Wheel)
    ensures stopped { timers_of wheel.new sid.0
        ≡ without_gone (G.goes gone.now) neighbours.now (timers_of wheel.old sid.0) }
    ensures others { ChangesOnly sid.0 (timers_of wheel.old) (timers_of wheel.new) }
{
    for neighbour in neighbours {
        stop_gone(neighbour, gone, sid, wheel);
    }
}

/// Stops the timer of the entry, if it goes.
fn stop_gone<G: Gone>(neighbour: &Neighbour, gone: &G, sid: Sid, wheel: &mut Wheel)
    ensures stopped { timers_of wheel.new sid.0
        ≡ (if G.goes gone.now neighbour.now.entry.half neighbour.now.entry.ip
        then without_numbered neighbour.now.arm (timers_of wheel.old sid.0)
        else timers_of wheel.old sid.0) }
    ensures others { ChangesOnly sid.0 (timers_of wheel.old) (timers_of wheel.new) }
{
    if gone.goes(neighbour.half(), neighbour.ip()) {
        stop_timer(neighbour.arm(), sid, wheel);
    }
}
