ghost use Rattle.std.specs.Prelude.{◌≡◌, IfOk};

use crate::command::{Command, Payload};
use vn_types::NoMemory;

impl Payload {
    /// The same data once more.
    pub fn copy(&self) -> Result<Payload, NoMemory>
        ensures { IfOk result (λ p. p ≡ self.now) }
    {
        match self {
            Payload::Digits(octets) => {
                let octets = octets.copy()?;
                Ok(Payload::Digits(octets))
            }
            Payload::Zero(length) => Ok(Payload::Zero(*length)),
        }
    }
}

impl Command {
    /// The same command once more.
    pub fn copy(&self) -> Result<Command, NoMemory>
        ensures { IfOk result (λ c. c ≡ self.now) }
    {
        Ok(match self {
            Command::JailCreate { path, children_max } => Command::JailCreate {
                path: path.copy()?,
                children_max: *children_max,
            },
            Command::JailRemove { path } => Command::JailRemove { path: path.copy()? },
            Command::EpairAny => Command::EpairAny,
            Command::EpairCreate { unit } => Command::EpairCreate { unit: *unit },
            Command::Destroy { name } => Command::Destroy { name: *name },
            Command::Vnet { name, path } => Command::Vnet {
                name: *name,
                path: path.copy()?,
            },
            Command::VnetBack { name, path } => Command::VnetBack {
                name: *name,
                path: path.copy()?,
            },
            Command::Inet { name, ip, len } => Command::Inet {
                name: *name,
                ip: *ip,
                len: *len,
            },
            Command::InetRemove { name, ip } => Command::InetRemove {
                name: *name,
                ip: *ip,
            },
            Command::Up { name } => Command::Up { name: *name },
            Command::Down { name } => Command::Down { name: *name },
            Command::Ether { name, mac } => Command::Ether {
                name: *name,
                mac: *mac,
            },
            Command::RouteAdd { to, via } => Command::RouteAdd { to: *to, via: *via },
            Command::RouteDelete { to } => Command::RouteDelete { to: *to },
            Command::ArpSet { ip, mac } => Command::ArpSet { ip: *ip, mac: *mac },
            Command::ArpDelete { ip } => Command::ArpDelete { ip: *ip },
            Command::SysctlGet { name } => Command::SysctlGet { name: name.copy()? },
            Command::SysctlSet { name, value } => Command::SysctlSet {
                name: name.copy()?,
                value: *value,
            },
            Command::Stat => Command::Stat,
            Command::Ping { ttl, ip } => Command::Ping { ttl: *ttl, ip: *ip },
            Command::UdpOpen { sock } => Command::UdpOpen { sock: sock.copy()? },
            Command::UdpBind { sock, ip, port } => Command::UdpBind {
                sock: sock.copy()?,
                ip: *ip,
                port: *port,
            },
            Command::UdpConnect { sock, ip, port } => Command::UdpConnect {
                sock: sock.copy()?,
                ip: *ip,
                port: *port,
            },
            Command::UdpSend { sock, payload, to } => Command::UdpSend {
                sock: sock.copy()?,
                payload: payload.copy()?,
                to: *to,
            },
            Command::UdpRecv { sock } => Command::UdpRecv { sock: sock.copy()? },
            Command::UdpTtl { sock, ttl } => Command::UdpTtl {
                sock: sock.copy()?,
                ttl: *ttl,
            },
            Command::UdpClose { sock } => Command::UdpClose { sock: sock.copy()? },
        })
    }
}
