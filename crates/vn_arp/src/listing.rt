//! The order of a listing: by address, number of the pair and side.

ghost use Rattle.std.specs.Prelude.{◌≡◌, ◌<◌, vec_len, vec_capacity};
ghost use Rattle.std.specs.List.{position_or_len};
ghost use Rattle.vn_arp.specs.Listing.{at_before, half_before, side_before, with_listed};

use crate::gone::At;
use vn_types::{HalfId, Side};

/// Lists a place before the first that it comes before. There is room for it.
pub(crate) fn list(order: &mut Vec<At>, at: At)
    requires { vec_len order.old < vec_capacity order.old }
    ensures { order.new.items ≡ with_listed at order.old.items }
{
    let place = place_for(order.as_slice(), at);
    let Ok(()) = order.insert(place, at) else {
        unreachable!()
    };
}

/// The number of those before the first that a place comes before.
fn place_for(order: &[At], at: At) -> usize
    ensures { result ≡ position_or_len (at_before at) order.now }
{
    match order.iter().position(|other| is_before(at, *other)) {
        Some(place) => place,
        None => order.len(),
    }
}

fn is_before(at: At, other: At) -> bool
    ensures { result ≡ at_before at other }
{
    at.ip.0 < other.ip.0 || (at.ip.0 == other.ip.0 && is_half_before(at.half, other.half))
}

fn is_half_before(half: HalfId, other: HalfId) -> bool
    ensures { result ≡ half_before half other }
{
    half.pair < other.pair || (half.pair == other.pair && is_side_before(half.side, other.side))
}

fn is_side_before(side: Side, other: Side) -> bool
    ensures { result ≡ side_before side other }
{
    match (side, other) {
        (Side::A, Side::B) => true,
        _ => false,
    }
}
