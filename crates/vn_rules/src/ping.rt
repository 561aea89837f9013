ghost use Rattle.std.specs.Prelude.{◌≡◌};
ghost use Rattle.vn_types.specs.Interfaces.{half_id_eq, if_same};

use vn_types::{HalfId, If, IfOf, Ip4, List, same_interface};

/// An echo request whose reply is awaited (ping(8)).
#[derive(Clone, Copy, PartialEq, Eq)]
pub struct PingOf<N> {
    pub id: u16,
    pub src: Ip4,
    pub dst: Ip4,
    /// The interface by which the request went out.
    pub out: IfOf<N>,
    /// The arm number of its timer.
    pub arm: u64,
}

/// The awaited pings of a stack, in order of sending, and the identifier of the next one.
pub struct PingsOf<N> {
    pub next: u16,
    pub awaited: List<PingOf<N>>,
}

/// An awaited ping, as the tables name its interface.
pub type Ping = PingOf<HalfId>;

impl PingOf<HalfId> {
    /// Whether the request went out by the interface.
    pub fn is_on(self, on: If) -> bool
        ensures { result ≡ if_same half_id_eq self.out on }
    {
        same_interface(self.out, on)
    }
}
