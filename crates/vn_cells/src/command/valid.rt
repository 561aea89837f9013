ghost use Rattle.std.specs.Prelude.{◌≡◌, ◌&&◌, nat_lt, nat_le};
ghost use Rattle.vn_types.specs.Words.{is_name, is_sock_name};
ghost use Rattle.vn_cells.specs.machine.Bounds.{is_ip, is_port, is_ttl, passes};
ghost use Rattle.vn_cells.specs.machine.Events.{is_built_command, is_endpoint, is_named_path, is_valid_command, is_valid_payload};
ghost use Rattle.vn_cells.specs.world.Names.{is_path};

use crate::bounds::{
    is_ifname, is_ip, is_mac, is_octets, is_port, is_prefix, is_ttl, is_unit, is_value,
};
use crate::command::{Command, Payload};
use vn_types::{Ip4, Name, Path, SockName};

impl Payload {
    /// Whether the data can be sent: 1 to 2,048 octets, or at most 20,000 of zero.
    #[tactic(auto, unfolding(crate::specs::machine::Events::is_valid_payload))]
    pub fn is_valid(&self) -> bool
        ensures { result ≡ is_valid_payload self.now }
    {
        match self {
            Payload::Digits(octets) => {
                let octets = octets.as_slice();
                is_octets(octets) && !octets.is_empty() && octets.len() <= 2_048
            }
            Payload::Zero(length) => *length <= 20_000,
        }
    }
}

impl Command {
    /// Whether the program runs it so far.
    #[tactic(auto, unfolding(crate::specs::machine::Events::is_built_command))]
    pub fn is_built(&self) -> bool
        ensures { result ≡ is_built_command self.now }
    {
        match self {
            Command::JailCreate { .. }
            | Command::JailRemove { .. }
            | Command::EpairAny
            | Command::EpairCreate { .. }
            | Command::Destroy { .. }
            | Command::Vnet { .. }
            | Command::VnetBack { .. }
            | Command::Up { .. }
            | Command::Down { .. }
            | Command::Ether { .. } => true,
            _ => false,
        }
    }

    /// Whether the command can be given at a path: whether its paths and numbers are within their bounds.
    #[tactic(auto, unfolding(crate::specs::machine::Events::is_valid_command))]
    pub fn is_valid(&self, issuer: &Path) -> bool
        ensures { result ≡ is_valid_command issuer.now self.now }
    {
        match self {
            Command::JailCreate { path, children_max } => {
                is_named(issuer, path) && *children_max < 10_000
            }
            Command::JailRemove { path } => is_named(issuer, path),
            Command::EpairAny | Command::Stat => true,
            Command::EpairCreate { unit } => is_unit(*unit),
            Command::Destroy { name } | Command::Up { name } | Command::Down { name } => {
                is_ifname(*name)
            }
            Command::Vnet { name, path } | Command::VnetBack { name, path } => {
                is_ifname(*name) && is_named(issuer, path)
            }
            Command::Inet { name, ip, len } => is_ifname(*name) && is_ip(*ip) && *len <= 32,
            Command::InetRemove { name, ip } => is_ifname(*name) && is_ip(*ip),
            Command::Ether { name, mac } => is_ifname(*name) && is_mac(*mac),
            Command::RouteAdd { to, via } => is_prefix(*to) && is_ip(*via),
            Command::RouteDelete { to } => is_prefix(*to),
            Command::ArpSet { ip, mac } => is_ip(*ip) && is_mac(*mac),
            Command::ArpDelete { ip } => is_ip(*ip),
            Command::SysctlGet { name } => is_name(name),
            Command::SysctlSet { name, value } => is_name(name) && is_value(*value),
            Command::Ping { ttl, ip } => is_left_out_or_ttl(*ttl) && is_ip(*ip),
            Command::UdpOpen { sock } | Command::UdpRecv { sock } | Command::UdpClose { sock } => {
                is_sock_name(sock)
            }
            Command::UdpBind { sock, ip, port } => {
                is_sock_name(sock) && is_left_out_or_ip(*ip) && is_port(*port)
            }
            Command::UdpConnect { sock, ip, port } => {
                is_sock_name(sock) && is_ip(*ip) && is_port(*port)
            }
            Command::UdpSend { sock, payload, to } => {
                is_sock_name(sock) && payload.is_valid() && is_left_out_or_endpoint(*to)
            }
            Command::UdpTtl { sock, ttl } => is_sock_name(sock) && is_ttl(*ttl),
        }
    }
}

/// Whether a path that a command names has a label, and at most 8 together with the issuer's.
#[tactic(auto, unfolding(crate::specs::machine::Events::is_named_path, vn_types::specs::Paths::is_host))]
fn is_named(issuer: &Path, path: &Path) -> bool
    ensures { result ≡ is_named_path issuer.now path.now }
{
    path.depth() != 0 && issuer.depth() + path.depth() <= 8
}

/// Every `Name` is one.
fn is_name(name: &Name) -> bool
    ensures { result ≡ is_name name.now }
{
    let _text = name.text();
    true
}

/// Every `SockName` is one.
fn is_sock_name(name: &SockName) -> bool
    ensures { result ≡ is_sock_name name.now }
{
    let _text = name.text();
    true
}

fn is_left_out_or_ttl(ttl: Option<u8>) -> bool
    ensures { result ≡ passes is_ttl ttl }
{
    match ttl {
        Some(ttl) => is_ttl(ttl),
        None => true,
    }
}

fn is_left_out_or_ip(ip: Option<Ip4>) -> bool
    ensures { result ≡ passes is_ip ip }
{
    match ip {
        Some(ip) => is_ip(ip),
        None => true,
    }
}

fn is_left_out_or_endpoint(to: Option<(Ip4, u16)>) -> bool
    ensures { result ≡ passes is_endpoint to }
{
    match to {
        Some((ip, port)) => is_ip(ip) && is_port(port),
        None => true,
    }
}
