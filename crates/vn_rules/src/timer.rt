ghost use Rattle.std.specs.Prelude.{◌≡◌};
ghost use Rattle.vn_types.specs.Interfaces.{half_id_eq};
ghost use Rattle.vn_rules.specs.Interfaces.{is_timer_of};

use vn_types::{HalfId, Ip4, List, same_half};

/// What a timer is for (callout(9)).
#[derive(Clone, Copy, PartialEq, Eq)]
pub enum TimerOf<N> {
    /// The entry of a neighbour's address.
    Arp { half: N, ip: Ip4 },
    /// An awaited ping, by its identifier and the timer's own arm number.
    Ping { id: u16, arm: u64 },
}

/// The timers of a stack by deadline (milliseconds) and then arm number, and how many were armed so far.
pub struct TimersOf<N> {
    pub armed: u64,
    pub standing: List<((u64, u64), TimerOf<N>)>,
}

/// A timer, as the tables name its half.
pub type Timer = TimerOf<HalfId>;

impl TimerOf<HalfId> {
    /// Whether it is the timer of an ARP entry on the half.
    pub fn is_of(self, half: HalfId) -> bool
        ensures { result ≡ is_timer_of half_id_eq half self }
    {
        match self {
            Timer::Arp { half: own, ip: _ } => same_half(own, half),
            Timer::Ping { id: _, arm: _ } => false,
        }
    }
}
