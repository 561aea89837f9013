ghost use Rattle.std.specs.Prelude.{◌≡◌};
ghost use Rattle.vn_types.specs.Interfaces.{half_id_eq};
ghost use Rattle.vn_rules.specs.Routes.{is_link, is_link_on};
ghost use Rattle.vn_route.specs.Wanted.{is_wanted};

use vn_rules::Target;
use vn_types::{If, same_interface};

/// Which routes a look-up looks at.
#[derive(Clone, Copy)]
pub(crate) enum Wanted {
    Any,
    Links,
    LinksOn(If),
}

impl Wanted {
    /// Whether a route that leads there is looked at.
    pub(crate) fn takes(self, target: Target) -> bool
        ensures { result ≡ is_wanted self target }
    {
        match self {
            Wanted::Any => true,
            Wanted::Links => is_link(target),
            Wanted::LinksOn(on) => is_link_on(target, on),
        }
    }
}

/// Whether it is an interface route's.
pub(crate) fn is_link(target: Target) -> bool
    ensures { result ≡ is_link target }
{
    match target {
        Target::Link(_) => true,
        Target::Gateway { via: _, on: _ } => false,
    }
}

/// Whether it is that of an interface route of the interface.
pub(crate) fn is_link_on(target: Target, on: If) -> bool
    ensures { result ≡ is_link_on half_id_eq on target }
{
    match target {
        Target::Link(own) => same_interface(own, on),
        Target::Gateway { via: _, on: _ } => false,
    }
}
