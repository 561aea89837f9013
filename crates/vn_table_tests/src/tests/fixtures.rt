//! What the tests of several tables share.

use vn_types::{HalfId, If, Ip4, Side};

/// The two halves of a pair.
pub(crate) const NEAR: HalfId = HalfId {
    pair: 7,
    side: Side::A,
};

pub(crate) const FAR: HalfId = HalfId {
    pair: 7,
    side: Side::B,
};

/// The same halves as interfaces.
pub(crate) const NEAR_IF: If = If::Half(NEAR);

pub(crate) const FAR_IF: If = If::Half(FAR);

/// An address of this stack, and one of another host.
pub(crate) const OWN: Ip4 = Ip4(0x0a00_0001);

pub(crate) const PEER: Ip4 = Ip4(0x0a00_0002);

pub(crate) fn ip(octets: [u8; 4]) -> Ip4 {
    Ip4(u32::from_be_bytes(octets))
}
