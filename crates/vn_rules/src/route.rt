ghost use Rattle.std.specs.Prelude.{◌≡◌};
ghost use Rattle.vn_types.specs.Interfaces.{half_id_eq, if_same};
ghost use Rattle.vn_rules.specs.Routes.{target_if};

use vn_types::{HalfId, If, IfOf, Ip4, same_interface};

/// Where a route leads (route(8)): to a network on an interface, or by a gateway beyond a half.
#[derive(Clone, Copy, PartialEq, Eq)]
pub enum TargetOf<N> {
    Link(IfOf<N>),
    Gateway { via: Ip4, on: N },
}

/// A target, as the tables name its interface.
pub type Target = TargetOf<HalfId>;

impl TargetOf<HalfId> {
    /// The interface by which a route to it leaves the stack.
    pub fn interface(self) -> If
        ensures { result ≡ target_if self }
    {
        match self {
            Target::Link(on) => on,
            Target::Gateway { via: _, on } => If::Half(on),
        }
    }

    /// Whether a route to it leaves the stack by the interface.
    pub fn is_on(self, on: If) -> bool
        ensures { result ≡ if_same half_id_eq (target_if self) on }
    {
        same_interface(self.interface(), on)
    }
}
