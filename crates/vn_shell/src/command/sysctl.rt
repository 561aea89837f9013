//! The words behind `sysctl`.

ghost use Rattle.std.specs.Prelude.{◌≡◌, IfOk};
ghost use Rattle.vn_shell.specs.Commands.Sysctl.{assignment_of, sysctl_of};
ghost use Rattle.vn_shell.specs.Words.{texts};

use std::alloc::Global;
use vn_cells::Command;
use vn_types::{Name, NoMemory, place_of, read_number};

/// The command that the words behind `sysctl` mean.
#[tactic(auto, unfolding(crate::specs::Commands::Sysctl::sysctl_of))]
pub(crate) fn read_sysctl(alloc: Global, words: &[&[u8]]) -> Result<Option<Command>, NoMemory>
    ensures { IfOk result (λ r. r ≡ sysctl_of (texts words.now)) }
{
    let [word] = words else {
        return Ok(None);
    };
    if let Some(name) = Name::read(alloc, word)? {
        return Ok(Some(Command::SysctlGet { name }));
    }
    let Some((name, value)) = read_assignment(alloc, word)? else {
        return Ok(None);
    };
    Ok(Some(Command::SysctlSet { name, value }))
}

/// `NAME=N`, cut at the first `=`.
#[tactic(auto, unfolding(crate::specs::Commands::Sysctl::assignment_of))]
fn read_assignment(alloc: Global, word: &[u8]) -> Result<Option<(Name, u64)>, NoMemory>
    ensures { IfOk result (λ r. r ≡ assignment_of word.now) }
{
    let Some(place) = place_of(word, b'=') else {
        return Ok(None);
    };
    let Some(name) = Name::read(alloc, &word[..place])? else {
        return Ok(None);
    };
    let Some(value) = read_number(&word[place + 1..]) else {
        return Ok(None);
    };
    Ok(Some((name, value)))
}
