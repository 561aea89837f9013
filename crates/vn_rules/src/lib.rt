//! The data that a stack keeps, generic in the name of a half: the tables name halves by number, the
//! machine by home, unit and side. Each rule over this data is written once, for any names.
#![tactic(auto)]

mod address;
mod arp;
mod network;
mod outcome;
mod parts;
mod ping;
mod route;
mod socket;
mod timer;
mod variable;

pub use address::{Addr, AddrOf};
pub use arp::{ArpEntry, ArpEntryOf, ArpState, HELD_MAX, REQUESTS_MAX};
pub use network::{directed_broadcast, is_loopback, is_no_host, lies_in, network_of};
pub use outcome::Outcome;
pub use parts::{Drops, LOOPBACK_MAX, PartsOf, SENT_MAX};
pub use ping::{Ping, PingOf, PingsOf};
pub use route::{Target, TargetOf};
pub use socket::{Gram, GramOf, Peer, RECEIVED_MAX, SocketOf};
pub use timer::{Timer, TimerOf, TimersOf};
pub use variable::{Bounds, Variable};
