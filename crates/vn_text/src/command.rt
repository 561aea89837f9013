//! Commands in their one canonical spelling, by the program that a user knows for them.

mod arp;
mod ifconfig;
mod jail;
mod ping;
mod route;
mod sysctl;
mod udp;

ghost use Rattle.std.specs.Prelude.{◌≡◌, ◌++◌, OnOk, OnErr};
ghost use Rattle.std.specs.Io.{StartsWith};
ghost use Rattle.vn_cells.specs.texts.Programs.{command_text};

use crate::command::arp::{put_arp, put_arp_removal};
use crate::command::ifconfig::{
    put_any_pair, put_ether, put_inet, put_inet_removal, put_interface, put_move, put_pair,
};
use crate::command::jail::{put_creation, put_removal};
use crate::command::ping::put_ping;
use crate::command::route::{put_route, put_route_removal};
use crate::command::sysctl::{put_setting, put_variable};
use crate::command::udp::{put_bind, put_connect, put_send, put_socket, put_socket_ttl};
use crate::put::put;
use vn_cells::Command;
use vn_types::{NoMemory, restore};

/// Puts a command at the end of the output, in its one canonical spelling.
pub fn write_command(command: &Command, out: &mut Vec<u8>) -> Result<(), NoMemory>
    ensures written { OnOk result (out.new.items ≡ out.old.items ++ command_text command.now) }
    ensures kept { OnErr result (out.new.items ≡ out.old.items) }
{
    let start = out.len();
    restore(put_command(command, out), start, out)
}

/// Puts a command at the end of the output.
#[tactic(auto, unfolding(vn_cells::specs::texts::Programs::command_text))]
pub(crate) fn put_command(command: &Command, out: &mut Vec<u8>) -> Result<(), NoMemory>
    ensures put { OnOk result (out.new.items ≡ out.old.items ++ command_text command.now) }
    ensures front { StartsWith out.new.items out.old.items }
{
    match command {
        Command::JailCreate { path, children_max } => put_creation(path, *children_max, out),
        Command::JailRemove { path } => put_removal(path, out),
        Command::EpairAny => put_any_pair(out),
        Command::EpairCreate { unit } => put_pair(*unit, out),
        Command::Destroy { name } => put_interface(*name, b" destroy", out),
        Command::Vnet { name, path } => put_move(*name, b" vnet ", path, out),
        Command::VnetBack { name, path } => put_move(*name, b" -vnet ", path, out),
        Command::Inet { name, ip, len } => put_inet(*name, *ip, *len, out),
        Command::InetRemove { name, ip } => put_inet_removal(*name, *ip, out),
        Command::Up { name } => put_interface(*name, b" up", out),
        Command::Down { name } => put_interface(*name, b" down", out),
        Command::Ether { name, mac } => put_ether(*name, *mac, out),
        Command::RouteAdd { to, via } => put_route(*to, *via, out),
        Command::RouteDelete { to } => put_route_removal(*to, out),
        Command::ArpSet { ip, mac } => put_arp(*ip, *mac, out),
        Command::ArpDelete { ip } => put_arp_removal(*ip, out),
        Command::SysctlGet { name } => put_variable(name, out),
        Command::SysctlSet { name, value } => put_setting(name, *value, out),
        Command::Stat => put(b"netstat -s", out),
        Command::Ping { ttl, ip } => put_ping(*ttl, *ip, out),
        Command::UdpOpen { sock } => put_socket(b"open ", sock, out),
        Command::UdpBind { sock, ip, port } => put_bind(sock, *ip, *port, out),
        Command::UdpConnect { sock, ip, port } => put_connect(sock, *ip, *port, out),
        Command::UdpSend { sock, payload, to } => put_send(sock, payload, *to, out),
        Command::UdpRecv { sock } => put_socket(b"recv ", sock, out),
        Command::UdpTtl { sock, ttl } => put_socket_ttl(sock, *ttl, out),
        Command::UdpClose { sock } => put_socket(b"close ", sock, out),
    }
}
