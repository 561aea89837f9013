ghost use Rattle.std.specs.Prelude.{◌≡◌};
ghost use Rattle.vn_types.specs.Interfaces.{half_id_eq, if_same};

/// The side of an epair (epair(4)).
#[derive(Clone, Copy, PartialEq, Eq)]
pub enum Side {
    A,
    B,
}

/// The number that a path's stack is given when it is first constructed. A path keeps it for good.
#[derive(Clone, Copy, PartialEq, Eq, PartialOrd, Ord)]
pub struct Sid(pub u32);

/// One half of an epair, by the number of the pair, while the pair exists.
#[derive(Clone, Copy, PartialEq, Eq)]
pub struct HalfId {
    pub pair: u32,
    pub side: Side,
}

/// An interface of a stack, where `N` names a half: the tables name halves by number, the machine by
/// home, unit and side.
#[derive(Clone, Copy, PartialEq, Eq)]
pub enum IfOf<N> {
    Lo0,
    Half(N),
}

/// An interface of a stack, as the tables name it.
pub type If = IfOf<HalfId>;

/// The name of an interface as a user writes it (ifconfig(8)).
#[derive(Clone, Copy, PartialEq, Eq)]
pub enum IfName {
    Lo0,
    Epair { unit: u32, side: Side },
}

/// Whether two halves are one.
pub fn same_half(a: HalfId, b: HalfId) -> bool
    ensures { result ≡ half_id_eq a b }
{
    a.pair == b.pair
        && match (a.side, b.side) {
            (Side::A, Side::A) | (Side::B, Side::B) => true,
            _ => false,
        }
}

/// Whether two interfaces are one.
pub fn same_interface(a: If, b: If) -> bool
    ensures { result ≡ if_same half_id_eq a b }
{
    match (a, b) {
        (If::Lo0, If::Lo0) => true,
        (If::Half(x), If::Half(y)) => same_half(x, y),
        _ => false,
    }
}
