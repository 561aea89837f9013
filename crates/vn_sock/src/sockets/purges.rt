ghost use Rattle.std.specs.Prelude.{◌≡◌, ◌<◌, [], IfSome, length, map, slice_get, slice_set};
ghost use Rattle.vn_types.specs.Interfaces.{half_id_eq};
ghost use Rattle.vn_rules.specs.Sockets.{unbound, unheard};

use crate::sockets::Sockets;
use vn_types::{If, Ip4};

impl Sockets {
    /// The stack loses an address.
    pub(crate) fn unbind(&mut self, ip: Ip4)
        ensures { self.new ≡ map (unbound ip) self.old }
    {
        for place in 0..self.items.len() {
            self.unbind_at(place, ip);
        }
    }

    /// The socket at the place loses the address, where that is its own.
    fn unbind_at(&mut self, place: usize, ip: Ip4)
        requires { place < length self.old }
        ensures { IfSome (slice_get self.old place) (λ s. self.new
            ≡ slice_set self.old place (unbound ip s)) }
    {
        let port = self.items[place].port();
        self.items[place].unbind(ip);
        let left = self.items[place].port();
        self.ports.rebind(place, port, left);
    }

    /// The stack loses an interface.
    pub(crate) fn purge(&mut self, via: If)
        ensures { self.new ≡ map (unheard half_id_eq via) self.old }
    {
        for socket in self.items.iter_mut() {
            socket.purge(via);
        }
    }

    pub(crate) fn clear(&mut self)
        ensures { self.new ≡ [] }
    {
        self.items.clear();
        self.names.clear();
        self.ports.clear();
    }
}
