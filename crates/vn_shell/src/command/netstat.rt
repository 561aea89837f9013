//! The words behind `netstat`.

ghost use Rattle.std.specs.Prelude.{◌≡◌};
ghost use Rattle.vn_shell.specs.Commands.Netstat.{netstat_of};
ghost use Rattle.vn_shell.specs.Words.{texts};

use vn_cells::Command;

/// The command that the words behind `netstat` mean.
#[tactic(auto, unfolding(crate::specs::Commands::Netstat::netstat_of))]
pub(crate) fn read_netstat(words: &[&[u8]]) -> Option<Command>
    ensures { result ≡ netstat_of (texts words.now) }
{
    match words {
        [b"-s"] => Some(Command::Stat),
        _ => None,
    }
}
