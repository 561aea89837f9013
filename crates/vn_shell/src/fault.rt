//! Why a line is not read.

ghost use Rattle.std.specs.Prelude.{◌≡◌};
ghost use Rattle.vn_shell.specs.declared.fault.LineFault.TheVariants.{Refused, NoMemory as Lack};
ghost use Rattle.vn_shell.specs.Readings.{at_line};

use crate::script::{Reason, ScriptFault};
use vn_types::NoMemory;

#[derive(Drop)]
pub(crate) enum LineFault {
    Refused(Reason),
    NoMemory,
}

impl From<Reason> for LineFault {
    ghost from_gives = { λ reason e. e ≡ Refused reason };

    fn from(reason: Reason) -> LineFault {
        LineFault::Refused(reason)
    }
}

impl From<NoMemory> for LineFault {
    ghost from_gives = { λ _ e. e ≡ Lack };

    fn from(_lack: NoMemory) -> LineFault {
        LineFault::NoMemory
    }
}

impl LineFault {
    /// The same of a script whose line has this number.
    pub(crate) fn at(self, line: u64) -> ScriptFault
        ensures { result ≡ at_line line self }
    {
        match self {
            LineFault::Refused(reason) => ScriptFault::Script { line, reason },
            LineFault::NoMemory => ScriptFault::NoMemory,
        }
    }
}
