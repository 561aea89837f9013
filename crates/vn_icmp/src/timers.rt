ghost use Rattle.std.specs.Prelude.{◌≡◌, if◌then◌else◌};
ghost use Rattle.vn_types.specs.PerStack.{ChangesOnly};
ghost use Rattle.vn_rules.specs.Pings.{timers_without};
ghost use Rattle.vn_rules.specs.Timers.{without_timer};
ghost use Rattle.vn_callout.specs.Stacks.{of};
ghost use Rattle.vn_icmp.specs.Which.{is_one};

use crate::which::Which;
use vn_callout::Wheel;
use vn_rules::Ping;
use vn_types::Sid;

/// Stops the timers of those of the pings.
pub(crate) fn stop_timers(pings: &[Ping], which: Which, sid: Sid, wheel: &mut Wheel)
    ensures stopped { of wheel.new sid.0
        ≡ timers_without (is_one which) pings.now (of wheel.old sid.0) }
    ensures others { ChangesOnly sid.0 (of wheel.old) (of wheel.new) }
{
    for ping in pings {
        stop_timer(*ping, which, sid, wheel);
    }
}

/// Stops the timer of the ping, if it is one of them.
fn stop_timer(ping: Ping, which: Which, sid: Sid, wheel: &mut Wheel)
    ensures stopped { of wheel.new sid.0
        ≡ (if is_one which ping then without_timer ping.arm (of wheel.old sid.0)
        else of wheel.old sid.0) }
    ensures others { ChangesOnly sid.0 (of wheel.old) (of wheel.new) }
{
    if !which.takes(ping) {
        return;
    }
    wheel.stop(sid, ping.arm);
}
