ghost use Rattle.std.specs.Prelude.{◌≡◌, ◌==◌, ◌^◌, ◌<◌, false, OnErr, IfOk};
ghost use Rattle.std.specs.List.{list_any};
ghost use Rattle.vn_types.specs.Interfaces.{half_id_eq};
ghost use Rattle.vn_rules.specs.Timers.{no_timers, with_arm, after_arm, has_timer, without_timer, times_without, due, after_due, soonest};

use std::alloc::Global;
use std::collections::BTreeMap;
use std::marker::Model;
use vn_rules::Timer;
use vn_types::{Empty, HalfId, NoMemory};

/// The timers of one stack, by deadline and then by arm number, and how many were armed so far.
#[derive(Drop)]
pub(crate) struct Timers {
    armed: u64,
    standing: BTreeMap<(u64, u64), Timer>,
}

impl Model for Timers {
    ghost use Rattle.std.specs.Prelude.{◌<◌, All};
    ghost use Rattle.vn_types.specs.declared.interface.HalfId.{HalfId};
    ghost use Rattle.vn_rules.specs.declared.timer.TimersOf.{TimersOf};

    ghost Value = { TimersOf HalfId };

    ghost view = { λ a. record { armed = a.armed; standing = a.standing.entries } };

    // No timer that stands has the number that is given next.
    ghost invariant = { λ a. All (λ e. e.0.1 < a.armed) a.standing.entries };
}

impl Empty for Timers {
    ghost empty = { no_timers };

    fn empty(alloc: Global) -> Timers {
        Timers {
            armed: 0,
            standing: BTreeMap::new(alloc),
        }
    }
}

impl Timers {
    pub(crate) fn arm(&mut self, deadline: u64, what: Timer) -> Result<u64, NoMemory>
        requires { self.old.armed < 2 ^ 63 }
        ensures armed { IfOk result (λ n. (n ≡ self.old.armed)
            × (self.new ≡ after_arm deadline what self.old)) }
        ensures unused { has_timer self.old.armed self.old ≡ false }
        ensures kept { OnErr result (self.new ≡ self.old) }
    {
        let number = self.armed;
        let timer = numbered(what, number);
        self.standing.insert((deadline, number), timer)?;
        self.armed = number + 1;
        Ok(number)
    }

    pub(crate) fn stop(&mut self, arm: u64) -> bool
        ensures stood { result ≡ has_timer arm self.old }
        ensures stopped { self.new ≡ without_timer arm self.old }
    {
        let stood = has_number(&self.standing, arm);
        self.standing.retain(|turn, _| turn.1 != arm);
        stood
    }

    pub(crate) fn stop_of_interface(&mut self, half: HalfId)
        ensures { self.new ≡ times_without half_id_eq half self.old }
    {
        self.standing.retain(|_, what| !what.is_of(half));
    }

    pub(crate) fn stop_all(&mut self)
        ensures { self.new ≡ no_timers }
    {
        self.standing.clear();
        self.armed = 0;
    }

    pub(crate) fn soonest(&self) -> Option<u64>
        ensures { result ≡ soonest self.now }
    {
        match self.standing.first_key_value() {
            Some((turn, _)) => Some(turn.0),
            None => None,
        }
    }

    pub(crate) fn due(&mut self, now: u64) -> Option<Timer>
        ensures due { result ≡ due now self.old }
        ensures taken { self.new ≡ after_due now self.old }
    {
        let deadline = self.soonest()?;
        if deadline > now {
            return None;
        }
        let (_, what) = self.standing.pop_first()?;
        Some(what)
    }
}

/// The timer with its arm number set, where it is a ping's.
fn numbered(what: Timer, number: u64) -> Timer
    ensures { result ≡ with_arm number what }
{
    match what {
        Timer::Arp { half, ip } => Timer::Arp { half, ip },
        Timer::Ping { id, arm: _ } => Timer::Ping { id, arm: number },
    }
}

fn has_number(standing: &BTreeMap<(u64, u64), Timer>, number: u64) -> bool
    ensures { result ≡ list_any (λ e. e.0.1 == number) standing.now.entries }
{
    standing.iter().any(|(turn, _)| turn.1 == number)
}
