//! Commands, by the program that a user would run.

mod arp;
mod ifconfig;
mod jail;
mod netstat;
mod ping;
mod route;
mod sysctl;
mod udp;

ghost use Rattle.std.specs.Prelude.{◌≡◌, ◌≤◌, ◌∷◌, IfOk};
ghost use Rattle.vn_shell.specs.Commands.{command_of, named_depth};
ghost use Rattle.vn_shell.specs.Words.{texts, words_of};

use crate::words::cut_words;
use arp::read_arp;
use ifconfig::read_ifconfig;
use jail::read_jail;
use netstat::read_netstat;
use ping::read_ping;
use route::read_route;
use std::alloc::Global;
use sysctl::read_sysctl;
use udp::read_udp;
use vn_cells::Command;
use vn_types::NoMemory;

/// Reads a command, and tells none where the text is outside the forms of commands. Its words stand
/// between spaces; a path in it is seen from the path that gives the command.
pub fn read_command(alloc: Global, text: &[u8]) -> Result<Option<Command>, NoMemory>
    ensures { IfOk result (λ r. r ≡ command_of (words_of text.now)) }
{
    let words = cut_words(alloc, text)?;
    read_command_words(alloc, words.as_slice())
}

/// The command that words mean.
#[tactic(auto, unfolding(crate::specs::Commands::command_of))]
pub(crate) fn read_command_words(
    alloc: Global,
    words: &[&[u8]],
) -> Result<Option<Command>, NoMemory>
    ensures { IfOk result (λ r. r ≡ command_of (texts words.now)) }
{
    match words {
        [program, words @ ..] => read_program(alloc, program, words),
        [] => Ok(None),
    }
}

/// The command that the words behind a program mean.
#[tactic(auto, unfolding(crate::specs::Commands::command_of))]
fn read_program(alloc: Global, program: &[u8], words: &[&[u8]]) -> Result<Option<Command>, NoMemory>
    ensures { IfOk result (λ r. r ≡ command_of (program.now ∷ texts words.now)) }
{
    if program == b"jail".as_slice() {
        return read_jail(alloc, words);
    }
    if program == b"ifconfig".as_slice() {
        return read_ifconfig(alloc, words);
    }
    if program == b"route".as_slice() {
        return Ok(read_route(words));
    }
    if program == b"arp".as_slice() {
        return Ok(read_arp(words));
    }
    if program == b"sysctl".as_slice() {
        return read_sysctl(alloc, words);
    }
    if program == b"netstat".as_slice() {
        return Ok(read_netstat(words));
    }
    if program == b"ping".as_slice() {
        return Ok(read_ping(words));
    }
    if program == b"udp".as_slice() {
        return read_udp(alloc, words);
    }
    Ok(None)
}

/// How many labels the path has that a command names.
pub(crate) fn named_depth(command: &Command) -> u64
    ensures depth { result ≡ named_depth command.now }
    ensures most { result ≤ 8 }
{
    match command {
        Command::JailCreate { path, .. }
        | Command::JailRemove { path }
        | Command::Vnet { path, .. }
        | Command::VnetBack { path, .. } => path.depth(),
        _ => 0,
    }
}
