ghost use Rattle.std.specs.Prelude.{◌≡◌, ◌+◌, ◌≤◌, ◌↔◌, ℕ, true, None, Some, List, length};
ghost use Rattle.std.specs.Option.{is_some};
ghost use Rattle.vn_types.specs.declared.half.Half.{Half as AnyHalf};
ghost use Rattle.vn_cells.specs.declared.event.Event.{Event as AnyEvent};
ghost use Rattle.vn_cells.specs.declared.event.Event.TheVariants as event;
ghost use Rattle.vn_cells.specs.declared.event.TheConstants.{EVENTS_MAX};
ghost use Rattle.vn_cells.specs.declared.script.Script.{Script as AnyScript};
ghost use Rattle.vn_cells.specs.declared.world.World.{World as AnyWorld};
ghost use Rattle.vn_cells.specs.world.Names.{Path as AnyPath, key_of};
ghost use Rattle.vn_cells.specs.world.World.{stack_at, pair_at};
ghost use Rattle.vn_cells.specs.machine.Deliveries.{next_delivery, settle_events};
ghost use Rattle.vn_cells.specs.machine.Events.{IsValid};
ghost use Rattle.vn_cells.specs.machine.Queues.{arrival, has_datagram};
ghost use Rattle.vn_cells.specs.keeping.Sound.{IsSound};
ghost use Rattle.vn_cells.specs.machine.Step.{run, run_from, step};
ghost use Rattle.vn_cells.specs.machine.Timing.{by_time, next_deadline, sleep_events};
ghost use Rattle.vn_cells.specs.machine.Weight.{weight};
ghost use Rattle.vn_cells.specs.texts.Schedule.{InOrder, IsSchedule, serial_run};
ghost use Rattle.vn_laws.specs.Growth.{IsSmall};
ghost use Rattle.vn_laws.specs.Sleep.{IsTurn, IsSlept};

/// Where the lines of a phase are done in script order, a script asks for one history.
pub fn law_of_schedules()
    ensures { (script : AnyScript) (events : List AnyEvent)
        → IsSchedule InOrder script events ↔ (events ≡ serial_run script) }
{}

/// Nothing waits after the deliveries of a settle, unless they are more than a run may have; and they are no more
/// than the weight of the sound world in which it starts.
pub fn law_of_settling()
    ensures settled { (w : AnyWorld) → length (settle_events w) ≤ EVENTS_MAX
        → next_delivery (run_from w (settle_events w)) ≡ None }
    ensures within { (w : AnyWorld) → IsSound w → length (settle_events w) ≤ weight w }
{}

/// A sleep ends, since each turn after which others come adds an event: a timer fires in it. Unless its events are
/// more than a run may have, at its end nothing waits, no timer has its deadline by then, and the clock is there.
pub fn law_of_sleep()
    ensures turns { (more end : ℕ) (w : AnyWorld)
        → IsTurn more end w (by_time end (next_deadline (run_from w (settle_events w)))) }
    ensures slept { (w : AnyWorld) (n : ℕ) → length (sleep_events n w) ≤ EVENTS_MAX
        → IsSlept (w.clock + n) (run_from w (sleep_events n w)) }
{}

/// Each delivery that takes something lowers the weight of a sound world by at least one: the next one, that
/// of a datagram through lo0 wherever one waits, and that of a frame to whatever half one comes.
pub fn law_of_falling_weight()
    ensures next { (w : AnyWorld) → IsSound w → (delivery : AnyEvent) → next_delivery w ≡ Some delivery
        → weight (step w delivery) + 1 ≤ weight w }
    ensures looped { (w : AnyWorld) → IsSound w → (path : AnyPath)
        → has_datagram (stack_at w path).live ≡ true → weight (step w (event.LoopDeliver path)) + 1 ≤ weight w }
    ensures frame { (w : AnyWorld) → IsSound w → (half : AnyHalf)
        → is_some (arrival half (pair_at w (key_of half))) ≡ true
        → weight (step w (event.Deliver half)) + 1 ≤ weight w }
{}

/// After n events, or fewer, the clock is at most n days, each living stack armed at most 2 n timers, and each of
/// its counters is at most n (n + 17).
pub fn law_of_growth()
    ensures { (events : List AnyEvent) (n : ℕ) → IsValid events → length events ≤ n
        → IsSmall n (run events) }
{}
