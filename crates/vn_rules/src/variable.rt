ghost use Rattle.std.specs.Prelude.{◌≡◌};
ghost use Rattle.vn_rules.specs.Variables.{allows};

use vn_types::Name;

/// A variable of a stack with its value (sysctl(8), VNET(9)).
pub struct Variable {
    pub name: Name,
    pub value: u64,
}

/// The least and the greatest value of a variable, and the value that each stack starts with.
#[derive(Clone, Copy)]
pub struct Bounds {
    pub initial: u64,
    pub least: u64,
    pub greatest: u64,
}

impl Bounds {
    /// Whether the variable may take a value.
    pub fn allows(self, value: u64) -> bool
        ensures { result ≡ allows self value }
    {
        self.least <= value && value <= self.greatest
    }
}
