ghost use Rattle.std.specs.Prelude.{◌≡◌, ◌<◌, [], IfNone, IfOk, IfSome, MatchOption, OnErr, OnOk, Some, None, length, slice_get, true};
ghost use Rattle.std.specs.List.{position};
ghost use Rattle.vn_types.specs.Refusals.{IsRefusedBy, first_refusal};
ghost use Rattle.vn_rules.specs.SocketRefusals.{closed_refusals, open_refusals};
ghost use Rattle.vn_rules.specs.Sockets.{after_close, after_open, cleared, is_named, socket_named, with_ttl};
ghost use Rattle.vn_sock.specs.Kept.{are_named_apart};

mod ports;
mod purges;
mod refusals;
mod traffic;

use crate::name_index::NameIndex;
use crate::port_index::PortIndex;
use crate::socket::Socket;
pub(crate) use refusals::Ends;
use std::alloc::Global;
use std::marker::Model;
use vn_types::{Empty, Errno, NoMemory, Reply, SockName};

/// The sockets of one stack in order of opening, with their places by name and by port. Only `open` takes
/// memory.
#[derive(Drop)]
pub(crate) struct Sockets {
    items: Vec<Socket>,
    names: NameIndex,
    ports: PortIndex,
}

impl Model for Sockets {
    ghost use Rattle.std.specs.Prelude.{List};
    ghost use Rattle.vn_types.specs.declared.interface.HalfId.{HalfId};
    ghost use Rattle.vn_rules.specs.declared.socket.SocketOf.{SocketOf};
    ghost use Rattle.vn_sock.specs.Kept.{IsIndexed, names_of, numbers_of};

    ghost Value = { List (SocketOf HalfId) };

    ghost view = { λ a. a.items.items };

    ghost invariant = { λ a. IsIndexed a.names a.ports (names_of a.items.items) (numbers_of a.items.items) };
}

impl Empty for Sockets {
    ghost empty = { [] };

    fn empty(alloc: Global) -> Sockets {
        Sockets {
            items: Vec::new(alloc),
            names: NameIndex::new(alloc),
            ports: PortIndex::new(alloc),
        }
    }
}

impl Sockets {
    pub(crate) fn open(&mut self, name: SockName) -> Reply<()>
        ensures answer { IfOk result (IsRefusedBy (first_refusal (open_refusals name self.old))) }
        ensures opened { IfOk result (λ answer. OnOk answer (self.new ≡ after_open name self.old)) }
        ensures refused { IfOk result (λ answer. OnErr answer (self.new ≡ self.old)) }
        ensures no_memory { OnErr result (self.new ≡ self.old) }
    {
        if self.named(&name).is_some() {
            return Ok(Err(Errno::Exist));
        }
        let alloc = *self.items.allocator();
        let place = self.items.len();
        let key = name.copy()?;
        let socket = Socket::new(alloc, name)?;
        self.items.reserve(1)?;
        self.ports.add(place)?;
        if self.names.add(key, place).is_err() {
            self.ports.remove(place, None);
            return Err(NoMemory);
        }
        self.items.push_reserved(socket);
        Ok(Ok(()))
    }

    pub(crate) fn set_ttl(&mut self, name: &SockName, ttl: u8) -> Result<(), Errno>
        ensures answer { IsRefusedBy (first_refusal (closed_refusals name.now self.old)) result }
        ensures set { OnOk result (self.new ≡ with_ttl name.now ttl self.old) }
        ensures refused { OnErr result (self.new ≡ self.old) }
    {
        let Some(place) = self.place_of(name) else {
            return Err(Errno::BadF);
        };
        self.items[place].set_ttl(ttl);
        Ok(())
    }

    pub(crate) fn close(&mut self, name: &SockName) -> Result<(), Errno>
        ensures answer { IsRefusedBy (first_refusal (closed_refusals name.now self.old)) result }
        ensures closed { OnOk result (self.new ≡ after_close name.now self.old) }
        ensures refused { OnErr result (self.new ≡ self.old) }
    {
        let Some(place) = self.place_of(name) else {
            return Err(Errno::BadF);
        };
        let port = self.items[place].port();
        self.names.remove(name, place);
        self.ports.remove(place, port);
        self.items.remove(place);
        Ok(())
    }

    /// The socket of a name.
    fn named(&self, name: &SockName) -> Option<&Socket>
        ensures { MatchOption result
            (socket_named name.now self.now ≡ None)
            (λ s. (socket_named name.now self.now ≡ Some s.now) × (s.now.name ≡ name.now)) }
    {
        match self.place_of(name) {
            Some(place) => Some(&self.items[place]),
            None => None,
        }
    }

    /// The place of the socket of a name.
    fn place_of(&self, name: &SockName) -> Option<usize>
        ensures place { result ≡ position (is_named name.now) self.now }
        ensures found { MatchOption result
            (socket_named name.now self.now ≡ None)
            (λ place. slice_get self.now place ≡ socket_named name.now self.now) }
        ensures within { IfSome result (λ place. place < length self.now) }
        ensures absent { IfNone result (self.now ≡ cleared name.now self.now) }
        ensures apart { are_named_apart self.now ≡ true }
    {
        self.names.place(name)
    }
}
