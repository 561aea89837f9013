ghost use Rattle.std.specs.Prelude.{◌≡◌, ◌<◌, ◌↔◌, false, IfErr, IfOk, IfSome, IsErr, IsTrue, OnErr, OnOk, Some, length, slice_get};
ghost use Rattle.std.specs.Option.{ForSome, option_map_or};
ghost use Rattle.vn_types.specs.Refusals.{IsRefusedBy, first_refusal};
ghost use Rattle.vn_rules.specs.SocketRefusals.{recv_refusals, send_refusals};
ghost use Rattle.vn_rules.specs.Sockets.{after_recv, cleared, first_gram, is_full_at, qualifies, socket_for, socket_named, with_gram};
ghost use Rattle.vn_sock.specs.Plans.{IsPlanOf};

use crate::plan::SendPlan;
use crate::sockets::Sockets;
use vn_rules::Gram;
use vn_types::{Errno, Ip4, SockName};

/// Where a datagram goes, where that is said.
type Destination = Option<(Ip4, u16)>;

impl Sockets {
    pub(crate) fn plan(
        &mut self,
        name: &SockName,
        to: Destination,
        is_bad: bool,
    ) -> Result<SendPlan, Errno>
        ensures answer { IsRefusedBy
            (first_refusal (send_refusals name.now to is_bad self.old)) result }
        ensures planned { IfOk result
            (λ plan. ForSome (socket_named name.now self.old) (IsPlanOf to self.old plan)) }
        ensures reported { self.new ≡ cleared name.now self.old }
    {
        let Some(place) = self.place_of(name) else {
            return Err(Errno::BadF);
        };
        let answer = self.planned(name, to, is_bad);
        self.items[place].clear_error();
        answer
    }

    fn planned(&self, name: &SockName, to: Destination, is_bad: bool) -> Result<SendPlan, Errno>
        ensures answer { IsRefusedBy
            (first_refusal (send_refusals name.now to is_bad self.now)) result }
        ensures planned { IfOk result
            (λ plan. ForSome (socket_named name.now self.now) (IsPlanOf to self.now plan)) }
    {
        let Some(socket) = self.named(name) else {
            return Err(Errno::BadF);
        };
        if socket.is_refused() {
            return Err(Errno::ConnRefused);
        }
        let (dst, dport) = match (to, socket.peer()) {
            (None, None) => return Err(Errno::DestAddrReq),
            (Some(_), Some(_)) => return Err(Errno::IsConn),
            (Some(_), None) if is_bad => return Err(Errno::Inval),
            (Some((_, 0)), None) => return Err(Errno::AddrNotAvail),
            (Some(to), None) => to,
            (None, Some(peer)) => (peer.ip, peer.port),
        };
        let Some(sport) = self.port_at(socket, socket.ip()) else {
            return Err(Errno::AddrNotAvail);
        };
        Ok(SendPlan {
            src: socket.ip(),
            sport,
            dst,
            dport,
            ttl: socket.ttl(),
        })
    }

    pub(crate) fn recv(&mut self, name: &SockName) -> Result<Gram, Errno>
        ensures answer { IsRefusedBy (first_refusal (recv_refusals name.now self.old)) result }
        ensures first { IfOk result (λ gram. first_gram name.now self.old ≡ Some gram) }
        ensures taken { OnOk result (self.new ≡ after_recv name.now self.old) }
        ensures reported { OnErr result (self.new ≡ cleared name.now self.old) }
    {
        let Some(place) = self.place_of(name) else {
            return Err(Errno::BadF);
        };
        self.items[place].recv()
    }

    /// The place of the socket that a datagram is for.
    pub(crate) fn demux(&self, dst: Ip4, dport: u16, src: Ip4, sport: u16) -> Option<u64>
        ensures place { result ≡ socket_for dst dport src sport self.now }
        ensures within { IfSome result (λ place. place < length self.now) }
    {
        let bound = self
            .ports
            .at(dport)
            .iter()
            .find(|bound| self.is_for(bound.place, dst, dport, src, sport))?;
        Some(bound.place as u64)
    }

    /// Whether a datagram is for the socket at the place.
    fn is_for(&self, place: usize, dst: Ip4, dport: u16, src: Ip4, sport: u16) -> bool
        ensures { result ≡ option_map_or (qualifies dst dport src sport) (slice_get self.now place) false }
    {
        match self.items.get(place) {
            Some(socket) => socket.qualifies(dst, dport, src, sport),
            None => false,
        }
    }

    pub(crate) fn deliver(&mut self, place: u64, gram: Gram) -> Result<(), Gram>
        requires { place < length self.old }
        ensures full { IsErr result ↔ IsTrue (is_full_at place self.old) }
        ensures delivered { self.new ≡ with_gram place gram self.old }
        ensures handed_back { IfErr result (λ back. back ≡ gram) }
        ensures kept { OnErr result (self.new ≡ self.old) }
    {
        self.items[place as usize].receive(gram)
    }
}
