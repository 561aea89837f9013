//! Which entries of a stack a call removes.

ghost use Rattle.std.specs.Prelude.{◌≡◌, Bool};
ghost use Rattle.vn_types.specs.declared.interface.HalfId.{HalfId};
ghost use Rattle.vn_types.specs.declared.address.Ip4.{Ip4};

use vn_types::{Covering, HalfId, If, Ip4, Sid, same_half};

/// A test of entries by their half and address.
pub(crate) trait Gone {
    // Whether the entry of the address on the half goes.
    ghost goes: { Self → HalfId → Ip4 → Bool };

    /// Whether the entry of the address on the half goes.
    fn goes(&self, half: HalfId, ip: Ip4) -> bool
        ensures { result ≡ goes self.now half ip };
}

/// The entry of the address on the half.
#[derive(Clone, Copy)]
pub(crate) struct At {
    pub(crate) half: HalfId,
    pub(crate) ip: Ip4,
}

impl Gone for At {
    ghost use Rattle.vn_types.specs.Interfaces.{half_id_eq};
    ghost use Rattle.vn_rules.specs.Arp.{is_place};

    ghost goes = { λ at half ip. is_place half_id_eq at.half at.ip half ip };

    fn goes(&self, half: HalfId, ip: Ip4) -> bool {
        same_half(half, self.half) && ip.0 == self.ip.0
    }
}

/// The entries of the address, on whatever half.
#[derive(Clone, Copy)]
pub(crate) struct OfAddress(pub(crate) Ip4);

impl Gone for OfAddress {
    ghost use Rattle.std.specs.Prelude.{◌==◌};

    ghost goes = { λ address half ip. ip.0 == address.0.0 };

    fn goes(&self, _half: HalfId, ip: Ip4) -> bool {
        ip.0 == self.0.0
    }
}

/// The entries on the half.
#[derive(Clone, Copy)]
pub(crate) struct On(pub(crate) HalfId);

impl Gone for On {
    ghost use Rattle.vn_types.specs.Interfaces.{half_id_eq};

    ghost goes = { λ on half ip. half_id_eq half on.0 };

    fn goes(&self, half: HalfId, _ip: Ip4) -> bool {
        same_half(half, self.0)
    }
}

/// The entries on the half that no interface route of the half covers.
#[derive(Drop)]
pub(crate) struct Uncovered<'a, R> {
    pub(crate) sid: Sid,
    pub(crate) half: HalfId,
    pub(crate) routes: &'a R,
}

impl<'a, R: Covering> Gone for Uncovered<'a, R> {
    ghost use Rattle.std.specs.Prelude.{◌&&◌, not};
    ghost use Rattle.vn_types.specs.Interfaces.{half_id_eq};
    ghost use Rattle.vn_types.specs.declared.interface.IfOf.TheVariants.{Half};

    ghost goes = { λ u half ip. half_id_eq half u.half && not (R.covers u.routes.now u.sid (Half half) ip) };

    fn goes(&self, half: HalfId, ip: Ip4) -> bool {
        same_half(half, self.half) && !self.routes.covers(self.sid, If::Half(half), ip)
    }
}
