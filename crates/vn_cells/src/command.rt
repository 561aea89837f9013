mod copy;
mod valid;

use vn_types::{IfName, Ip4, Mac, Name, Octets, Path, Prefix, SockName};

/// The data of a datagram that a command sends.
#[derive(Drop)]
pub enum Payload {
    /// The octets that hexadecimal digits spell.
    Digits(Octets),
    /// So many octets of zero.
    Zero(u16),
}

/// A command of a script. A path in it is relative to the path that runs it.
#[derive(Drop)]
pub enum Command {
    /// `jail -c`: makes a jail, with a limit on its living descendants (jail(8), `children.max`).
    JailCreate {
        path: Path,
        children_max: u32,
    },
    /// `jail -r`: removes a jail and its descendants.
    JailRemove {
        path: Path,
    },
    /// `ifconfig epair create`: makes a pair of the lowest free unit (epair(4)).
    EpairAny,
    /// `ifconfig epairN create`: makes the pair of a unit.
    EpairCreate {
        unit: u32,
    },
    /// `ifconfig IF destroy`: destroys the pair of a half.
    Destroy {
        name: IfName,
    },
    /// `ifconfig IF vnet P`: lends a half to a jail (ifconfig(8)).
    Vnet {
        name: IfName,
        path: Path,
    },
    /// `ifconfig IF -vnet P`: reclaims a half from a jail.
    VnetBack {
        name: IfName,
        path: Path,
    },
    /// `ifconfig IF inet`: adds an address.
    Inet {
        name: IfName,
        ip: Ip4,
        len: u8,
    },
    /// `ifconfig IF inet IP -alias`: removes an address.
    InetRemove {
        name: IfName,
        ip: Ip4,
    },
    /// `ifconfig IF up`
    Up {
        name: IfName,
    },
    /// `ifconfig IF down`
    Down {
        name: IfName,
    },
    /// `ifconfig IF ether`: sets the hardware address.
    Ether {
        name: IfName,
        mac: Mac,
    },
    /// `route add`: adds a route by a gateway (route(8)).
    RouteAdd {
        to: Prefix,
        via: Ip4,
    },
    /// `route delete`: removes a route by a gateway.
    RouteDelete {
        to: Prefix,
    },
    /// `arp -s`: sets a static entry (arp(8)).
    ArpSet {
        ip: Ip4,
        mac: Mac,
    },
    /// `arp -d`: removes the entries of an address.
    ArpDelete {
        ip: Ip4,
    },
    /// `sysctl NAME`: reads a variable (sysctl(8)).
    SysctlGet {
        name: Name,
    },
    /// `sysctl NAME=N`: sets a variable.
    SysctlSet {
        name: Name,
        value: u64,
    },
    /// `netstat -s`: tells what was dropped (netstat(1)).
    Stat,
    /// `ping`: sends an echo request (ping(8)).
    Ping {
        ttl: Option<u8>,
        ip: Ip4,
    },
    /// `udp open`: makes a socket.
    UdpOpen {
        sock: SockName,
    },
    /// `udp bind`: gives a socket its address, or none, and its port; port 0 asks for a free one.
    UdpBind {
        sock: SockName,
        ip: Option<Ip4>,
        port: u16,
    },
    /// `udp connect`: gives a socket its peer.
    UdpConnect {
        sock: SockName,
        ip: Ip4,
        port: u16,
    },
    /// `udp send`: sends a datagram, to the peer where no destination is given.
    UdpSend {
        sock: SockName,
        payload: Payload,
        to: Option<(Ip4, u16)>,
    },
    /// `udp recv`: takes the datagram that was queued first.
    UdpRecv {
        sock: SockName,
    },
    /// `udp ttl`: sets the time to live of what a socket sends.
    UdpTtl {
        sock: SockName,
        ttl: u8,
    },
    /// `udp close`: closes a socket.
    UdpClose {
        sock: SockName,
    },
}
