ghost use Rattle.std.specs.Prelude.{◌≡◌, Some, refl};
ghost use Rattle.std.specs.Ordering.{eq_by_cmp};
ghost use Rattle.std.specs.Cmp.{partial_equiv_from_equiv};
ghost use Rattle.vn_rules.specs.Routes.{prefix_cmp};
ghost use Rattle.vn_route.specs.Keys.{prefix_total, prefix_equiv, prefix_po};

use std::cmp::Ordering;
use std::marker::Model;
use vn_types::Prefix;

/// A prefix as the key of a route: ordered by network, and by length where two have one network.
#[derive(Drop)]
pub(crate) struct Network {
    prefix: Prefix,
}

impl Model for Network {
    ghost use Rattle.vn_types.specs.declared.address.Prefix.{Prefix};

    ghost Value = { Prefix };

    ghost view = { λ a. a.prefix };
}

impl PartialEq for Network {
    ghost eq = { eq_by_cmp prefix_cmp };

    ghost laws = { partial_equiv_from_equiv prefix_equiv };

    fn eq(&self, other: &Network) -> bool {
        self.cmp(other) == Ordering::Equal
    }
}

impl Eq for Network {
    ghost laws = { prefix_equiv };
}

impl PartialOrd for Network {
    ghost partial_cmp = { λ a b. Some (prefix_cmp a b) };

    ghost laws = { prefix_po };

    fn partial_cmp(&self, other: &Network) -> Option<Ordering> {
        Some(self.cmp(other))
    }
}

impl Ord for Network {
    ghost cmp = { prefix_cmp };

    ghost total = { prefix_total };

    ghost matches_partial_cmp = { λ a b. refl };

    ghost matches_eq = { λ a b. refl };

    fn cmp(&self, other: &Network) -> Ordering {
        let by_network = self.prefix.net.0.cmp(&other.prefix.net.0);
        by_network.then(self.prefix.len.cmp(&other.prefix.len))
    }
}

impl Network {
    pub(crate) fn of(prefix: Prefix) -> Network
        ensures { result ≡ prefix }
    {
        Network { prefix }
    }

    pub(crate) fn prefix(&self) -> Prefix
        ensures { result ≡ self.now }
    {
        self.prefix
    }
}
