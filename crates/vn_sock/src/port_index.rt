ghost use Rattle.std.specs.Prelude.{◌≡◌, ◌≢◌, ◌<◌, ◌≤◌, ◌+◌, ◌==◌, ◌&&◌, ◌||◌, not, ℕ, [], true, false, filter, OnErr, OnOk, vec_capacity, vec_len};
ghost use Rattle.vn_sock.specs.Ports.{are_ordered, has, is_bound, is_under, moved_up, port_number, precedes};
ghost use Rattle.vn_sock.specs.Names.{unmoved};

use std::alloc::Global;
use std::marker::Model;
use vn_types::NoMemory;

/// A socket by the number of its port and its place.
#[derive(Clone, Copy)]
pub(crate) struct Bound {
    pub port: u32,
    pub place: usize,
}

/// The sockets of one stack in order of their ports, and then of their places. Only `add` takes memory.
#[derive(Drop)]
pub(crate) struct PortIndex {
    items: Vec<Bound>,
}

impl Model for PortIndex {
    ghost use Rattle.std.specs.Prelude.{List, vec_capacity, vec_len};
    ghost use Rattle.vn_sock.specs.declared.port_index.Bound.{Bound};
    ghost use Rattle.vn_sock.specs.Ports.{IsKept};

    ghost Value = { List Bound };

    ghost view = { λ a. a.items.items };

    ghost invariant = { λ a. IsKept a.items.items (vec_len a.items) (vec_capacity a.items) };
}

/// The number under which a port stands: 0 where there is none.
fn port_number(port: Option<u16>) -> u32
    ensures { result ≡ port_number port }
{
    match port {
        Some(port) => u32::from(port) + 1,
        None => 0,
    }
}

impl Bound {
    fn precedes(&self, other: Bound) -> bool
        ensures { result ≡ precedes self.now other }
    {
        self.port < other.port || (self.port == other.port && self.place < other.place)
    }

    /// Has its place once the socket at that one is gone.
    fn move_up(&mut self, gone: usize)
        ensures { self.new ≡ moved_up gone self.old }
    {
        if gone < self.place {
            self.place -= 1;
        }
    }
}

/// Puts one where it comes in order.
fn put(items: &mut Vec<Bound>, bound: Bound)
    requires ordered { are_ordered items.old.items ≡ true }
    requires absent { has bound.port bound.place items.old.items ≡ false }
    requires room { vec_len items.old < vec_capacity items.old }
    ensures ordered { are_ordered items.new.items ≡ true }
    ensures put { (q k : ℕ) → has q k items.new.items ≡ (is_bound q k bound || has q k items.old.items) }
    ensures room { vec_len items.new ≤ vec_capacity items.new }
{
    let at = items.partition_point(|other| other.precedes(bound));
    let _ = items.insert(at, bound);
}

/// Takes one away.
fn take(items: &mut Vec<Bound>, bound: Bound)
    requires ordered { are_ordered items.old.items ≡ true }
    requires there { has bound.port bound.place items.old.items ≡ true }
    requires room { vec_len items.old ≤ vec_capacity items.old }
    ensures ordered { are_ordered items.new.items ≡ true }
    ensures taken { (q k : ℕ) → has q k items.new.items ≡ (not (is_bound q k bound) && has q k items.old.items) }
    ensures room { vec_len items.new < vec_capacity items.new }
{
    let at = items.partition_point(|other| other.precedes(bound));
    items.remove(at);
}

impl PortIndex {
    pub(crate) fn new(alloc: Global) -> PortIndex
        ensures { result ≡ [] }
    {
        PortIndex {
            items: Vec::new(alloc),
        }
    }

    /// The sockets that have the port, in order of opening.
    pub(crate) fn at(&self, port: u16) -> &[Bound]
        ensures under { result.now ≡ filter (is_under (port + 1)) self.now }
        ensures ordered { are_ordered result.now ≡ true }
    {
        let number = port_number(Some(port));
        let start = self.items.partition_point(|bound| bound.port < number);
        let rest = self.items.as_slice().split_at(start).1;
        let many = rest.partition_point(|bound| bound.port <= number);
        rest.split_at(many).0
    }

    /// One socket more, without a port.
    pub(crate) fn add(&mut self, place: usize) -> Result<(), NoMemory>
        requires { has 0 place self.old ≡ false }
        ensures added { OnOk result ((q k : ℕ)
            → has q k self.new ≡ (((0 == q) && (place == k)) || has q k self.old)) }
        ensures kept { OnErr result (self.new ≡ self.old) }
    {
        self.items.reserve(1)?;
        put(&mut self.items, Bound { port: 0, place });
        Ok(())
    }

    /// A socket has another port.
    pub(crate) fn rebind(&mut self, place: usize, from: Option<u16>, to: Option<u16>)
        requires { (q : ℕ) → has q place self.old ≡ (port_number from == q) }
        ensures here { (q : ℕ) → has q place self.new ≡ (port_number to == q) }
        ensures others { (q k : ℕ) → k ≢ place → has q k self.new ≡ has q k self.old }
    {
        let port = port_number(from);
        take(&mut self.items, Bound { port, place });
        let port = port_number(to);
        put(&mut self.items, Bound { port, place });
    }

    /// A socket is gone, and those behind it move up.
    pub(crate) fn remove(&mut self, place: usize, port: Option<u16>)
        requires { (q : ℕ) → has q place self.old ≡ (port_number port == q) }
        ensures { (q k : ℕ) → has q k self.new ≡ has q (unmoved place k) self.old }
    {
        let port = port_number(port);
        take(&mut self.items, Bound { port, place });
        for bound in self.items.iter_mut() {
            bound.move_up(place);
        }
    }

    pub(crate) fn clear(&mut self)
        ensures { self.new ≡ [] }
    {
        self.items.clear();
    }
}
