//! What a table asks of another one on which it doesn't stand.

ghost use Rattle.std.specs.Prelude.{◌≡◌, Bool};
ghost use Rattle.vn_types.specs.declared.interface.Sid.{Sid};
ghost use Rattle.vn_types.specs.declared.interface.IfName.{IfName};
ghost use Rattle.vn_types.specs.declared.interface.IfOf.{IfOf};
ghost use Rattle.vn_types.specs.declared.interface.HalfId.{HalfId};
ghost use Rattle.vn_types.specs.declared.address.Ip4.{Ip4};

use crate::address::Ip4;
use crate::interface::{If, IfName, Sid};

/// The interfaces of each stack by their names.
pub trait Standing {
    // Whether an interface of the name stands in the stack.
    ghost stands: { Self → Sid → IfName → Bool };

    /// Whether an interface of the name stands in the stack.
    fn stands(&self, sid: Sid, name: IfName) -> bool
        ensures { result ≡ stands self.now sid name };
}

/// The interface routes of each stack.
pub trait Covering {
    // Whether an interface route of the interface covers the address.
    ghost covers: { Self → Sid → IfOf HalfId → Ip4 → Bool };

    /// Whether an interface route of the interface covers the address.
    fn covers(&self, sid: Sid, on: If, ip: Ip4) -> bool
        ensures { result ≡ covers self.now sid on ip };
}
