ghost use Rattle.std.specs.Prelude.{◌≡◌, ◌<◌, ◌&&◌, false, not, IfOk, IfSome, OnErr, OnOk, Some, length, slice_get, slice_set};
ghost use Rattle.std.specs.Option.{ForSome, option_map_or, option_or};
ghost use Rattle.std.specs.Result.{result_ok};
ghost use Rattle.vn_types.specs.Refusals.{IsRefusedBy, first_refusal};
ghost use Rattle.vn_rules.specs.Ports.{automatic_port, conflicts, is_port_free};
ghost use Rattle.vn_rules.specs.SocketRefusals.{bind_refusals, connect_refusals, is_bad};
ghost use Rattle.vn_rules.specs.Sockets.{after_bind, after_connect, after_sent, is_named, others, port_asked, port_at, socket_named};

use crate::socket::Socket;
use crate::sockets::Sockets;
use vn_rules::Peer;
use vn_types::{Errno, Ip4, SockName};

/// The first of the dynamic ports (RFC 6335, section 6).
const FIRST_DYNAMIC: u16 = 49_152;

/// The number of the dynamic ports.
const DYNAMIC: u16 = 16_384;

/// A local address or none, and a port.
type End = (Option<Ip4>, u16);

impl Sockets {
    pub(crate) fn bind(&mut self, name: &SockName, end: End, is_local: bool) -> Result<(), Errno>
        ensures answer { IsRefusedBy
            (first_refusal (bind_refusals name.now end.0 end.1 is_local self.old)) result }
        ensures bound { OnOk result (self.new ≡ after_bind name.now end.0 end.1 self.old) }
        ensures refused { OnErr result (self.new ≡ self.old) }
    {
        let Some(place) = self.place_of(name) else {
            return Err(Errno::BadF);
        };
        let own = match self.port_to_bind(name, end, is_local) {
            Ok(own) => own,
            Err(errno) => return Err(errno),
        };
        let peer = self.items[place].peer();
        self.settle(place, (end.0, own), peer);
        Ok(())
    }

    pub(crate) fn connect(
        &mut self,
        name: &SockName,
        peer: Peer,
        source: Result<Ip4, Errno>,
    ) -> Result<(), Errno>
        ensures answer { IsRefusedBy
            (first_refusal (connect_refusals name.now peer.port source self.old)) result }
        ensures connected { OnOk result (IfOk source
            (λ own. self.new ≡ after_connect name.now peer.ip peer.port own self.old)) }
        ensures refused { OnErr result (self.new ≡ self.old) }
    {
        let Some(place) = self.place_of(name) else {
            return Err(Errno::BadF);
        };
        let end = match self.end_to_connect(name, peer.port, source) {
            Ok(end) => end,
            Err(errno) => return Err(errno),
        };
        self.settle(place, end, Some(peer));
        Ok(())
    }

    /// A datagram went out from the port.
    pub(crate) fn sent(&mut self, name: &SockName, port: u16)
        ensures { self.new ≡ after_sent name.now port self.old }
    {
        if let Some(place) = self.place_of(name) {
            let socket = &self.items[place];
            let end = (socket.ip(), socket.port().unwrap_or(port));
            let peer = socket.peer();
            self.settle(place, end, peer);
        }
    }

    /// The socket at the place has that end, and that peer.
    fn settle(&mut self, place: usize, end: End, peer: Option<Peer>)
        requires { place < length self.old }
        ensures { IfSome (slice_get self.old place) (λ s. self.new ≡ slice_set self.old place
            (record s { ip = end.0; port = Some end.1; peer = peer })) }
    {
        let port = self.items[place].port();
        self.items[place].settle(end.0, end.1, peer);
        self.ports.rebind(place, port, Some(end.1));
    }

    /// The port that a socket is to be bound to.
    fn port_to_bind(&self, name: &SockName, end: End, is_local: bool) -> Result<u16, Errno>
        ensures answer { IsRefusedBy
            (first_refusal (bind_refusals name.now end.0 end.1 is_local self.now)) result }
        ensures port { IfOk result
            (λ own. port_asked end.0 end.1 (others name.now self.now) ≡ Some own) }
    {
        let (ip, port) = end;
        let Some(socket) = self.named(name) else {
            return Err(Errno::BadF);
        };
        if socket.port().is_some() {
            return Err(Errno::Inval);
        }
        if !is_local {
            return Err(Errno::AddrNotAvail);
        }
        if port != 0 && !self.is_port_free(socket, ip, port) {
            return Err(Errno::AddrInUse);
        }
        match self.port_asked(socket, ip, port) {
            Some(own) => Ok(own),
            None => Err(Errno::AddrNotAvail),
        }
    }

    /// The address and port that a socket is to have once it is connected.
    fn end_to_connect(
        &self,
        name: &SockName,
        port: u16,
        source: Result<Ip4, Errno>,
    ) -> Result<End, Errno>
        ensures answer { IsRefusedBy
            (first_refusal (connect_refusals name.now port source self.now)) result }
        ensures end { IfOk result (λ end. ForSome (socket_named name.now self.now)
            (λ s. (end.0 ≡ option_or s.ip (result_ok source))
            × (port_at end.0 s self.now ≡ Some end.1))) }
    {
        let Some(socket) = self.named(name) else {
            return Err(Errno::BadF);
        };
        if socket.peer().is_some() {
            return Err(Errno::IsConn);
        }
        if is_bad(source) {
            return Err(Errno::Inval);
        }
        if port == 0 {
            return Err(Errno::AddrNotAvail);
        }
        let Ok(source) = source else {
            return Err(Errno::NetUnreach);
        };
        let ip = socket.ip().or(Some(source));
        match self.port_at(socket, ip) {
            Some(own) => Ok((ip, own)),
            None => Err(Errno::AddrNotAvail),
        }
    }

    /// The port of a socket, or a free one at the address.
    pub(super) fn port_at(&self, socket: &Socket, ip: Option<Ip4>) -> Option<u16>
        ensures { result ≡ port_at ip socket.now self.now }
    {
        match socket.port() {
            Some(port) => Some(port),
            None => self.automatic_port(socket, ip),
        }
    }

    /// The port that is asked for, or a free one where it is 0.
    fn port_asked(&self, socket: &Socket, ip: Option<Ip4>, port: u16) -> Option<u16>
        ensures { result ≡ port_asked ip port (others socket.now.name self.now) }
    {
        if port == 0 {
            self.automatic_port(socket, ip)
        } else {
            Some(port)
        }
    }

    /// The first of the dynamic ports that is free at the address for a socket.
    fn automatic_port(&self, socket: &Socket, ip: Option<Ip4>) -> Option<u16>
        ensures { result ≡ automatic_port ip (others socket.now.name self.now) }
    {
        for step in 0..DYNAMIC {
            let port = FIRST_DYNAMIC + step;
            if self.is_port_free(socket, ip, port) {
                return Some(port);
            }
        }
        None
    }

    /// Whether no other socket than that has the port at an address that overlaps.
    fn is_port_free(&self, socket: &Socket, ip: Option<Ip4>, port: u16) -> bool
        ensures { result ≡ is_port_free ip port (others socket.now.name self.now) }
    {
        !self
            .ports
            .at(port)
            .iter()
            .any(|bound| self.is_taken_at(bound.place, socket, ip, port))
    }

    /// Whether another socket than that stands at the place, and has the port at an address that overlaps.
    fn is_taken_at(&self, place: usize, socket: &Socket, ip: Option<Ip4>, port: u16) -> bool
        ensures { result ≡ option_map_or (λ other. not (is_named socket.now.name other)
            && conflicts ip port other) (slice_get self.now place) false }
    {
        match self.items.get(place) {
            Some(other) => !other.has_name_of(socket) && other.conflicts(ip, port),
            None => false,
        }
    }
}

/// Whether a source was refused since the destination may not be sent to.
fn is_bad(source: Result<Ip4, Errno>) -> bool
    ensures { result ≡ is_bad source }
{
    match source {
        Ok(_) => false,
        Err(errno) => errno.number() == Errno::Inval.number(),
    }
}
