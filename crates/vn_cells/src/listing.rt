use vn_rules::ArpState;
use vn_types::{IfName, Ip4, List, Mac, Prefix};

/// The tables of a stack that can be listed.
#[derive(Clone, Copy, PartialEq, Eq)]
pub enum Table {
    If,
    Route,
    Arp,
}

/// A line of the interface table (ifconfig(8), `-a`). Only a half has a hardware address. An address
/// stands with the length of its prefix in bits.
#[derive(Drop)]
pub struct IfRow {
    pub name: IfName,
    pub up: bool,
    pub mtu: u16,
    pub mac: Option<Mac>,
    pub addrs: List<(Ip4, u8)>,
}

/// Where a listed route leads.
#[derive(Clone, Copy, PartialEq, Eq)]
pub enum RowTarget {
    Link(IfName),
    Gateway { via: Ip4, on: IfName },
}

/// A line of the route table (netstat(1), `-rn`).
#[derive(Clone, Copy, PartialEq, Eq)]
pub struct RouteRow {
    pub to: Prefix,
    pub target: RowTarget,
}

/// A line of the ARP table (arp(8), `-an`).
#[derive(Clone, Copy, PartialEq, Eq)]
pub struct ArpRow {
    pub ip: Ip4,
    pub mac: Option<Mac>,
    pub on: IfName,
    pub state: ArpState,
}

/// The lines of one table.
#[derive(Drop)]
pub enum Rows {
    Ifs(List<IfRow>),
    Routes(List<RouteRow>),
    Arps(List<ArpRow>),
}
