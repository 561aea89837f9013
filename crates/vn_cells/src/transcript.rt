use crate::command::Command;
use crate::listing::Table;
use vn_rules::Outcome;
use vn_types::{Boxed, Ip4, Name};

/// What an entry of a transcript tells.
#[derive(Drop)]
pub enum What {
    Cmd {
        lane: u8,
        /// On the heap, since most entries are those of constructors.
        command: Boxed<Command>,
        outcome: Outcome,
    },
    Open {
        lane: u8,
        table: Table,
        outcome: Outcome,
    },
    Next {
        lane: u8,
        outcome: Outcome,
    },
    Close {
        lane: u8,
        outcome: Outcome,
    },
    /// A constructor of the stack ran (VNET(9)).
    Init(Name),
    /// A destructor of the stack ran.
    Uninit(Name),
    /// An awaited echo reply came; the octets are those of its ICMP message.
    Reply {
        from: Ip4,
        id: u16,
        ttl: u8,
        bytes: u16,
    },
    /// An ICMP error about an awaited ping came (RFC 792).
    Icmp {
        kind: u8,
        code: u8,
        from: Ip4,
        id: u16,
    },
    /// The timer of an awaited ping fired.
    Timeout {
        ip: Ip4,
        id: u16,
    },
}

/// A line of a stack's transcript, with the clock in milliseconds.
#[derive(Drop)]
pub struct Entry {
    pub clock: u64,
    pub what: What,
}
