ghost use Rattle.std.specs.Prelude.{◌≡◌};
ghost use Rattle.vn_icmp.specs.Which.{is_one};

use vn_rules::Ping;
use vn_types::{If, Ip4};

/// Which awaited pings a call is about.
#[derive(Clone, Copy)]
pub(crate) enum Which {
    AnsweredBy { id: u16, from: Ip4 },
    QuotedBy { id: u16, src: Ip4, dst: Ip4 },
    TimedBy { arm: u64 },
    OutBy(If),
    From(Ip4),
    Any,
}

impl Which {
    /// Whether it is one of them.
    pub(crate) fn takes(self, ping: Ping) -> bool
        ensures { result ≡ is_one self ping }
    {
        match self {
            Which::AnsweredBy { id, from } => ping.id == id && ping.dst.0 == from.0,
            Which::QuotedBy { id, src, dst } => {
                ping.id == id && ping.src.0 == src.0 && ping.dst.0 == dst.0
            }
            Which::TimedBy { arm } => ping.arm == arm,
            Which::OutBy(on) => ping.is_on(on),
            Which::From(src) => ping.src.0 == src.0,
            Which::Any => true,
        }
    }
}
