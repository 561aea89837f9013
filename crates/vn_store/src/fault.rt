use vn_types::NoMemory;

/// Why a variable was not declared.
#[derive(Drop)]
pub enum DeclareFault {
    /// A variable of that name is declared.
    Taken,
    NoMemory,
}

impl From<NoMemory> for DeclareFault {
    ghost use Rattle.std.specs.Prelude.{◌≡◌};
    ghost use Rattle.vn_store.specs.declared.fault.DeclareFault.TheVariants as fault;

    ghost from_gives = { λ _ e. e ≡ fault.NoMemory };

    fn from(_error: NoMemory) -> DeclareFault {
        DeclareFault::NoMemory
    }
}

/// Why a value was not set (sysctl(3): ENOENT, EINVAL).
#[derive(Drop)]
pub enum SetFault {
    /// No variable of that name is declared.
    Unknown,
    /// The value is below the least or above the greatest of the variable.
    Range,
}

/// No variable of that name is declared.
#[derive(Drop)]
pub struct Unknown;
