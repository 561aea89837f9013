ghost use Rattle.std.specs.Prelude.{◌≡◌, ◌<◌, ◌↔◌, ℕ, List, [], IfErr, IfOk, IfSome, IsErr, IsTrue, OnErr, OnOk, Some, length, map};
ghost use Rattle.std.specs.Option.{ForSome};
ghost use Rattle.vn_types.specs.Interfaces.{half_id_eq};
ghost use Rattle.vn_types.specs.PerStack.{ChangesOnly};
ghost use Rattle.vn_types.specs.Refusals.{IsRefusedBy, first_refusal};
ghost use Rattle.vn_types.specs.declared.interface.HalfId.{HalfId};
ghost use Rattle.vn_rules.specs.declared.socket.SocketOf.{SocketOf};
ghost use Rattle.vn_rules.specs.SocketRefusals.{bind_refusals, closed_refusals, connect_refusals, open_refusals, recv_refusals, send_refusals};
ghost use Rattle.vn_rules.specs.Sockets.{after_bind, after_close, after_connect, after_open, after_recv, after_sent, cleared, first_gram, has_sender, is_full_at, refused_by, socket_for, socket_named, unbound, unheard, with_gram, with_ttl};
ghost use Rattle.vn_sock.specs.Plans.{IsPlanOf};
ghost use Rattle.vn_sock.specs.Stacks.{of};

use crate::plan::SendPlan;
use crate::sockets::{Ends, Sockets};
use std::alloc::Global;
use std::marker::Model;
use vn_rules::{Gram, Peer};
use vn_types::{Errno, If, Ip4, NoMemory, PerStack, Reply, Sid, SockName};

/// The open sockets of all stacks, seen as a list of stacks by their numbers. Only `open` takes memory.
#[derive(Drop)]
pub struct Socks {
    stacks: PerStack<Sockets>,
}

impl Model for Socks {
    ghost Value = { List (List (SocketOf HalfId)) };

    ghost view = { λ a. a.stacks };
}

impl Socks {
    /// A table in which no socket is open.
    pub fn new(alloc: Global) -> Result<Socks, NoMemory>
        ensures { IfOk result (λ socks. (q : ℕ) → of socks q ≡ []) }
    {
        Ok(Socks {
            stacks: PerStack::new(alloc),
        })
    }

    /// Opens a socket of a stack, with room for all that it may receive.
    pub fn open(&mut self, sid: Sid, name: SockName) -> Reply<()>
        ensures answer { IfOk result
            (IsRefusedBy (first_refusal (open_refusals name (of self.old sid.0)))) }
        ensures opened { IfOk result (λ answer. OnOk answer (of self.new sid.0
            ≡ after_open name (of self.old sid.0))) }
        ensures refused { IfOk result
            (λ answer. OnErr answer (of self.new sid.0 ≡ of self.old sid.0)) }
        ensures no_memory { OnErr result (of self.new sid.0 ≡ of self.old sid.0) }
        ensures others { ChangesOnly sid.0 (of self.old) (of self.new) }
    {
        self.stacks.at_or_new(sid)?.open(name)
    }

    /// Binds a socket to an address or none, where `is_local` says whether it may be, and to a port, which
    /// is the lowest free one of the dynamic ports where 0 is asked for (bind(2)).
    pub fn bind(
        &mut self,
        sid: Sid,
        name: &SockName,
        ip: Option<Ip4>,
        port: u16,
        is_local: bool,
    ) -> Result<(), Errno>
        ensures answer { IsRefusedBy
            (first_refusal (bind_refusals name.now ip port is_local (of self.old sid.0))) result }
        ensures bound { OnOk result (of self.new sid.0
            ≡ after_bind name.now ip port (of self.old sid.0)) }
        ensures refused { OnErr result (of self.new sid.0 ≡ of self.old sid.0) }
        ensures others { ChangesOnly sid.0 (of self.old) (of self.new) }
    {
        match self.stacks.at_mut(sid) {
            Some(sockets) => sockets.bind(name, (ip, port), is_local),
            None => Err(Errno::BadF),
        }
    }

    /// Connects a socket, with the source that output would choose, or why it would choose none (connect(2)).
    pub fn connect(
        &mut self,
        sid: Sid,
        name: &SockName,
        ip: Ip4,
        port: u16,
        source: Result<Ip4, Errno>,
    ) -> Result<(), Errno>
        ensures answer { IsRefusedBy
            (first_refusal (connect_refusals name.now port source (of self.old sid.0))) result }
        ensures connected { OnOk result (IfOk source (λ own. of self.new sid.0
            ≡ after_connect name.now ip port own (of self.old sid.0))) }
        ensures refused { OnErr result (of self.new sid.0 ≡ of self.old sid.0) }
        ensures others { ChangesOnly sid.0 (of self.old) (of self.new) }
    {
        match self.stacks.at_mut(sid) {
            Some(sockets) => sockets.connect(name, Peer { ip, port }, source),
            None => Err(Errno::BadF),
        }
    }

    /// What a socket would send, to a destination that may be given, where `is_bad` says whether it may not
    /// be sent to. An error that was pending is reported, and nothing is bound (send(2)).
    pub fn plan(
        &mut self,
        sid: Sid,
        name: &SockName,
        to: Option<(Ip4, u16)>,
        is_bad: bool,
    ) -> Result<SendPlan, Errno>
        ensures answer { IsRefusedBy
            (first_refusal (send_refusals name.now to is_bad (of self.old sid.0))) result }
        ensures planned { IfOk result (λ plan. ForSome
            (socket_named name.now (of self.old sid.0)) (IsPlanOf to (of self.old sid.0) plan)) }
        ensures reported { of self.new sid.0 ≡ cleared name.now (of self.old sid.0) }
        ensures others { ChangesOnly sid.0 (of self.old) (of self.new) }
    {
        match self.stacks.at_mut(sid) {
            Some(sockets) => sockets.plan(name, to, is_bad),
            None => Err(Errno::BadF),
        }
    }

    /// A datagram went out from the port, which an unbound socket has from now on.
    pub fn sent(&mut self, sid: Sid, name: &SockName, sport: u16)
        ensures bound { of self.new sid.0 ≡ after_sent name.now sport (of self.old sid.0) }
        ensures others { ChangesOnly sid.0 (of self.old) (of self.new) }
    {
        if let Some(sockets) = self.stacks.at_mut(sid) {
            sockets.sent(name, sport);
        }
    }

    /// Takes the datagram that a socket received first. An error that was pending is reported (recv(2)).
    pub fn recv(&mut self, sid: Sid, name: &SockName) -> Result<Gram, Errno>
        ensures answer { IsRefusedBy
            (first_refusal (recv_refusals name.now (of self.old sid.0))) result }
        ensures first { IfOk result
            (λ gram. first_gram name.now (of self.old sid.0) ≡ Some gram) }
        ensures taken { OnOk result (of self.new sid.0
            ≡ after_recv name.now (of self.old sid.0)) }
        ensures reported { OnErr result (of self.new sid.0
            ≡ cleared name.now (of self.old sid.0)) }
        ensures others { ChangesOnly sid.0 (of self.old) (of self.new) }
    {
        match self.stacks.at_mut(sid) {
            Some(sockets) => sockets.recv(name),
            None => Err(Errno::BadF),
        }
    }

    /// Sets the time to live of what a socket sends.
    pub fn ttl(&mut self, sid: Sid, name: &SockName, ttl: u8) -> Result<(), Errno>
        ensures answer { IsRefusedBy
            (first_refusal (closed_refusals name.now (of self.old sid.0))) result }
        ensures set { OnOk result (of self.new sid.0
            ≡ with_ttl name.now ttl (of self.old sid.0)) }
        ensures refused { OnErr result (of self.new sid.0 ≡ of self.old sid.0) }
        ensures others { ChangesOnly sid.0 (of self.old) (of self.new) }
    {
        match self.stacks.at_mut(sid) {
            Some(sockets) => sockets.set_ttl(name, ttl),
            None => Err(Errno::BadF),
        }
    }

    /// Closes a socket, with what it received.
    pub fn close(&mut self, sid: Sid, name: &SockName) -> Result<(), Errno>
        ensures answer { IsRefusedBy
            (first_refusal (closed_refusals name.now (of self.old sid.0))) result }
        ensures closed { OnOk result (of self.new sid.0
            ≡ after_close name.now (of self.old sid.0)) }
        ensures refused { OnErr result (of self.new sid.0 ≡ of self.old sid.0) }
        ensures others { ChangesOnly sid.0 (of self.old) (of self.new) }
    {
        match self.stacks.at_mut(sid) {
            Some(sockets) => sockets.close(name),
            None => Err(Errno::BadF),
        }
    }

    /// The place of the socket that a datagram is for, in order of opening, counted from 0 (RFC 768).
    pub fn demux(&self, sid: Sid, dst: Ip4, dport: u16, src: Ip4, sport: u16) -> Option<u64>
        ensures place { result ≡ socket_for dst dport src sport (of self.now sid.0) }
        ensures within { IfSome result (λ place. place < length (of self.now sid.0)) }
    {
        self.stacks.at(sid)?.demux(dst, dport, src, sport)
    }

    /// Queues a datagram at the socket of a place, or hands it back where its queue is full.
    pub fn deliver(&mut self, sid: Sid, place: u64, gram: Gram) -> Result<(), Gram>
        requires { place < length (of self.old sid.0) }
        ensures full { IsErr result ↔ IsTrue (is_full_at place (of self.old sid.0)) }
        ensures delivered { OnOk result (of self.new sid.0
            ≡ with_gram place gram (of self.old sid.0)) }
        ensures handed_back { IfErr result (λ back. back ≡ gram) }
        ensures kept { OnErr result (of self.new sid.0 ≡ of self.old sid.0) }
        ensures others { ChangesOnly sid.0 (of self.old) (of self.new) }
    {
        self.stacks.at_mut(sid).unwrap().deliver(place, gram)
    }

    /// The port is unreachable to which a datagram went: the error of the connected socket that sent it is
    /// pending from now on. Whether there is one (RFC 1122, section 4.1.3.3).
    pub fn refuse(&mut self, sid: Sid, src: Ip4, sport: u16, dst: Ip4, dport: u16) -> bool
        ensures sent { result ≡ has_sender src sport dst dport (of self.old sid.0) }
        ensures refused { of self.new sid.0
            ≡ refused_by src sport dst dport (of self.old sid.0) }
        ensures others { ChangesOnly sid.0 (of self.old) (of self.new) }
    {
        match self.stacks.at_mut(sid) {
            Some(sockets) => sockets.refuse(Ends {
                src,
                sport,
                dst,
                dport,
            }),
            None => false,
        }
    }

    /// Sockets whose local address a stack loses, lose it with their port and peer. What they received stays,
    /// and so does a pending error.
    pub fn purge_address(&mut self, sid: Sid, ip: Ip4)
        ensures purged { of self.new sid.0 ≡ map (unbound ip) (of self.old sid.0) }
        ensures others { ChangesOnly sid.0 (of self.old) (of self.new) }
    {
        if let Some(sockets) = self.stacks.at_mut(sid) {
            sockets.unbind(ip);
        }
    }

    /// Drops the datagrams that a stack received by the interface.
    pub fn purge_interface(&mut self, sid: Sid, via: If)
        ensures purged { of self.new sid.0 ≡ map (unheard half_id_eq via) (of self.old sid.0) }
        ensures others { ChangesOnly sid.0 (of self.old) (of self.new) }
    {
        if let Some(sockets) = self.stacks.at_mut(sid) {
            sockets.purge(via);
        }
    }

    /// Closes all sockets of a stack.
    pub fn purge_stack(&mut self, sid: Sid)
        ensures purged { of self.new sid.0 ≡ [] }
        ensures others { ChangesOnly sid.0 (of self.old) (of self.new) }
    {
        if let Some(sockets) = self.stacks.at_mut(sid) {
            sockets.clear();
        }
    }
}
