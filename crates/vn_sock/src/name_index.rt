ghost use Rattle.std.specs.Prelude.{◌≡◌, ℕ, List, [], None, OnErr, OnOk, Some, if◌then◌else◌};
ghost use Rattle.std.specs.Option.{option_map};
ghost use Rattle.std.specs.Str.{bytes_eq};
ghost use Rattle.vn_sock.specs.Names.{moved, told};

use std::alloc::Global;
use std::collections::BTreeMap;
use std::marker::Model;
use vn_types::{NoMemory, SockName};

/// The places of the sockets of one stack by their names. Only `add` takes memory.
#[derive(Drop)]
pub(crate) struct NameIndex {
    places: BTreeMap<SockName, usize>,
}

impl Model for NameIndex {
    ghost use Rattle.std.specs.Prelude.{List, ℕ};

    ghost Value = { List (List ℕ × ℕ) };

    ghost view = { λ a. a.places.entries };
}

impl NameIndex {
    pub(crate) fn new(alloc: Global) -> NameIndex
        ensures { result ≡ [] }
    {
        NameIndex {
            places: BTreeMap::new(alloc),
        }
    }

    /// The place of the socket of a name.
    pub(crate) fn place(&self, name: &SockName) -> Option<usize>
        ensures { result ≡ told name.now self.now }
    {
        self.places.get(name).copied()
    }

    /// One socket more.
    pub(crate) fn add(&mut self, name: SockName, place: usize) -> Result<(), NoMemory>
        ensures added { OnOk result ((q : List ℕ)
            → told q self.new ≡ (if bytes_eq name q then Some place else told q self.old)) }
        ensures kept { OnErr result (self.new ≡ self.old) }
    {
        self.places.insert(name, place)?;
        Ok(())
    }

    /// The socket of a name is gone from its place, and those behind it move up.
    pub(crate) fn remove(&mut self, name: &SockName, place: usize)
        ensures { (q : List ℕ) → told q self.new
            ≡ (if bytes_eq name.now q then None else option_map (moved place) (told q self.old)) }
    {
        self.places.remove(name);
        self.places.retain(|_, other| {
            if place < *other {
                *other -= 1;
            }
            true
        });
    }

    pub(crate) fn clear(&mut self)
        ensures { self.new ≡ [] }
    {
        self.places.clear();
    }
}
