ghost use Rattle.std.specs.Prelude.{◌≡◌, ◌<◌, false, IfSome, length, slice_get, slice_set};
ghost use Rattle.std.specs.List.{position};
ghost use Rattle.std.specs.Option.{option_map_or};
ghost use Rattle.vn_rules.specs.Sockets.{has_sent, has_sender, refused_by};
ghost use Rattle.vn_sock.specs.Kept.{is_to_refuse, refused};

use crate::sockets::Sockets;
use vn_types::Ip4;

/// The addresses and ports of a datagram that was sent.
#[derive(Clone, Copy)]
pub(crate) struct Ends {
    pub src: Ip4,
    pub sport: u16,
    pub dst: Ip4,
    pub dport: u16,
}

impl Sockets {
    /// The port that a datagram was sent to is unreachable.
    pub(crate) fn refuse(&mut self, ends: Ends) -> bool
        ensures sent { result ≡ has_sender ends.src ends.sport ends.dst ends.dport self.old }
        ensures refused { self.new ≡ refused_by ends.src ends.sport ends.dst ends.dport self.old }
    {
        let is_sent = self.has_sender(ends);
        while let Some(place) = self.sender(ends) {
            self.refuse_at(place, ends);
        }
        is_sent
    }

    /// Whether the datagram was a socket's own.
    fn has_sender(&self, ends: Ends) -> bool
        ensures { result ≡ has_sender ends.src ends.sport ends.dst ends.dport self.now }
    {
        self.ports
            .at(ends.sport)
            .iter()
            .any(|bound| self.has_sent_at(bound.place, ends))
    }

    /// The place of a socket whose own the datagram was, and whose error is not pending yet.
    fn sender(&self, ends: Ends) -> Option<usize>
        ensures place { result ≡ position (is_to_refuse ends.src ends.sport ends.dst ends.dport) self.now }
        ensures within { IfSome result (λ place. place < length self.now) }
    {
        let bound = self
            .ports
            .at(ends.sport)
            .iter()
            .find(|bound| self.is_to_refuse(bound.place, ends))?;
        Some(bound.place)
    }

    fn has_sent_at(&self, place: usize, ends: Ends) -> bool
        ensures { result ≡ option_map_or (has_sent ends.src ends.sport ends.dst ends.dport)
            (slice_get self.now place) false }
    {
        match self.items.get(place) {
            Some(socket) => socket.has_sent(ends.src, ends.sport, ends.dst, ends.dport),
            None => false,
        }
    }

    fn is_to_refuse(&self, place: usize, ends: Ends) -> bool
        ensures { result ≡ option_map_or (is_to_refuse ends.src ends.sport ends.dst ends.dport)
            (slice_get self.now place) false }
    {
        match self.items.get(place) {
            Some(socket) => {
                socket.has_sent(ends.src, ends.sport, ends.dst, ends.dport) && !socket.is_refused()
            }
            None => false,
        }
    }

    /// The error of the socket at the place is pending from now on.
    fn refuse_at(&mut self, place: usize, ends: Ends)
        requires { place < length self.old }
        ensures { IfSome (slice_get self.old place) (λ s. self.new
            ≡ slice_set self.old place (refused ends.src ends.sport ends.dst ends.dport s)) }
    {
        self.items[place].refuse(ends.src, ends.sport, ends.dst, ends.dport);
    }
}
