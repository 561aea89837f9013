ghost use Rattle.std.specs.Prelude.{◌≡◌, ◌↔◌, ◌∷◌, [], IsErr, IfErr, IfOk, IsTrue, OnErr, OnOk, Some, None, drop, false, is_none, slice_get, true};
ghost use Rattle.vn_types.specs.Interfaces.{half_id_eq};
ghost use Rattle.vn_types.specs.Refusals.{IsRefusedBy, first_refusal};
ghost use Rattle.vn_types.specs.declared.errno.Errno.TheVariants as errno;
ghost use Rattle.vn_rules.specs.Ports.{conflicts, is_port, overlaps};
ghost use Rattle.vn_sock.specs.Kept.{refused};
ghost use Rattle.vn_rules.specs.Sockets.{has_sent, hears, is_ip, is_named, is_peer, is_queue_full, new_socket, qualifies, queued, unbound, unheard};

use crate::queue::Queue;
use std::alloc::Global;
use std::marker::Model;
use vn_rules::{Gram, Peer};
use vn_types::{Errno, If, Ip4, NoMemory, SockName};

/// Where a socket is bound, and to whom it is connected.
#[derive(Drop)]
struct Binding {
    ip: Option<Ip4>,
    port: Option<u16>,
    peer: Option<Peer>,
}

const UNBOUND: Binding = Binding {
    ip: None,
    port: None,
    peer: None,
};

/// An open socket. Only `new` takes memory.
#[derive(Drop)]
pub(crate) struct Socket {
    name: SockName,
    binding: Binding,
    ttl: Option<u8>,
    refused: bool,
    queue: Queue,
}

impl Model for Socket {
    ghost use Rattle.vn_types.specs.declared.interface.HalfId.{HalfId};
    ghost use Rattle.vn_rules.specs.declared.socket.SocketOf.{SocketOf};

    ghost Value = { SocketOf HalfId };

    ghost view = { λ a. record {
      name = a.name;
      ip = a.binding.ip;
      port = a.binding.port;
      peer = a.binding.peer;
      ttl = a.ttl;
      refused = a.refused;
      queue = a.queue;
    } };
}

impl Socket {
    /// A socket as it is opened.
    pub(crate) fn new(alloc: Global, name: SockName) -> Result<Socket, NoMemory>
        ensures { IfOk result (λ socket. socket ≡ new_socket name) }
    {
        let queue = Queue::new(alloc)?;
        Ok(Socket {
            name,
            binding: UNBOUND,
            ttl: None,
            refused: false,
            queue,
        })
    }

    pub(crate) fn has_name_of(&self, other: &Socket) -> bool
        ensures { result ≡ is_named other.now.name self.now }
    {
        other.name == self.name
    }

    pub(crate) fn ip(&self) -> Option<Ip4>
        ensures { result ≡ self.now.ip }
    {
        self.binding.ip
    }

    pub(crate) fn port(&self) -> Option<u16>
        ensures { result ≡ self.now.port }
    {
        self.binding.port
    }

    pub(crate) fn peer(&self) -> Option<Peer>
        ensures { result ≡ self.now.peer }
    {
        self.binding.peer
    }

    pub(crate) fn ttl(&self) -> Option<u8>
        ensures { result ≡ self.now.ttl }
    {
        self.ttl
    }

    pub(crate) fn set_ttl(&mut self, ttl: u8)
        ensures { self.new ≡ record self.old { ttl = Some ttl } }
    {
        self.ttl = Some(ttl);
    }

    /// Has that address, port and peer.
    pub(crate) fn settle(&mut self, ip: Option<Ip4>, port: u16, peer: Option<Peer>)
        ensures { self.new ≡ record self.old { ip = ip; port = Some port; peer = peer } }
    {
        self.binding = Binding {
            ip,
            port: Some(port),
            peer,
        };
    }

    /// Whether an error is pending.
    pub(crate) fn is_refused(&self) -> bool
        ensures { result ≡ self.now.refused }
    {
        self.refused
    }

    /// A pending error is reported.
    pub(crate) fn clear_error(&mut self)
        ensures { self.new ≡ record self.old { refused = false } }
    {
        self.refused = false;
    }

    /// Reports a pending error, or takes the oldest datagram.
    pub(crate) fn recv(&mut self) -> Result<Gram, Errno>
        ensures answer { IsRefusedBy (first_refusal ((self.old.refused, errno.ConnRefused)
            ∷ (is_none (slice_get self.old.queue 0), errno.Again) ∷ [])) result }
        ensures first { IfOk result (λ gram. slice_get self.old.queue 0 ≡ Some gram) }
        ensures taken { OnOk result (self.new
            ≡ record self.old { queue = drop 1 self.old.queue }) }
        ensures reported { OnErr result (self.new ≡ record self.old { refused = false }) }
    {
        if self.refused {
            self.clear_error();
            return Err(Errno::ConnRefused);
        }
        match self.queue.take() {
            Some(gram) => Ok(gram),
            None => Err(Errno::Again),
        }
    }

    /// Queues a datagram, or hands it back.
    pub(crate) fn receive(&mut self, gram: Gram) -> Result<(), Gram>
        ensures full { IsErr result ↔ IsTrue (is_queue_full self.old) }
        ensures queued { self.new ≡ queued gram self.old }
        ensures handed_back { IfErr result (λ back. back ≡ gram) }
    {
        self.queue.try_put(gram)
    }

    /// Drops the datagrams that came by the interface.
    pub(crate) fn purge(&mut self, via: If)
        ensures { self.new ≡ unheard half_id_eq via self.old }
    {
        self.queue.purge(via);
    }

    /// Loses address, port and peer, where that is its address.
    pub(crate) fn unbind(&mut self, ip: Ip4)
        ensures { self.new ≡ unbound ip self.old }
    {
        if self.has_ip(ip) {
            self.binding = UNBOUND;
        }
    }

    /// Has its error pending, where the datagram between these addresses and ports was its own.
    pub(crate) fn refuse(&mut self, src: Ip4, sport: u16, dst: Ip4, dport: u16)
        ensures { self.new ≡ refused src sport dst dport self.old }
    {
        if self.has_sent(src, sport, dst, dport) {
            self.refused = true;
        }
    }

    /// Whether it is the connected one from which a datagram between these went.
    pub(crate) fn has_sent(&self, src: Ip4, sport: u16, dst: Ip4, dport: u16) -> bool
        ensures { result ≡ has_sent src sport dst dport self.now }
    {
        let is_to = match self.binding.peer {
            Some(peer) => is_peer(dst, dport, peer),
            None => false,
        };
        self.has_ip(src) && self.has_port(sport) && is_to
    }

    /// Whether a datagram between these addresses and ports is for the socket.
    pub(crate) fn qualifies(&self, dst: Ip4, dport: u16, src: Ip4, sport: u16) -> bool
        ensures { result ≡ qualifies dst dport src sport self.now }
    {
        self.conflicts(Some(dst), dport) && self.hears(src, sport)
    }

    fn hears(&self, src: Ip4, sport: u16) -> bool
        ensures { result ≡ hears src sport self.now }
    {
        match self.binding.peer {
            Some(peer) => is_peer(src, sport, peer),
            None => true,
        }
    }

    /// Whether it has the port, at an address that overlaps.
    pub(crate) fn conflicts(&self, ip: Option<Ip4>, port: u16) -> bool
        ensures { result ≡ conflicts ip port self.now }
    {
        self.has_port(port) && overlaps(self.binding.ip, ip)
    }

    fn has_port(&self, port: u16) -> bool
        ensures { result ≡ is_port port self.now.port }
    {
        match self.binding.port {
            Some(own) => own == port,
            None => false,
        }
    }

    fn has_ip(&self, ip: Ip4) -> bool
        ensures { result ≡ is_ip ip self.now.ip }
    {
        match self.binding.ip {
            Some(own) => own.0 == ip.0,
            None => false,
        }
    }
}

fn is_peer(ip: Ip4, port: u16, peer: Peer) -> bool
    ensures { result ≡ is_peer ip port peer }
{
    peer.ip.0 == ip.0 && peer.port == port
}

fn overlaps(a: Option<Ip4>, b: Option<Ip4>) -> bool
    ensures { result ≡ overlaps a b }
{
    match (a, b) {
        (Some(a), Some(b)) => a.0 == b.0,
        _ => true,
    }
}
