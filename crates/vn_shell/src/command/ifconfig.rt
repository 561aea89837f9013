//! The words behind `ifconfig`.

ghost use Rattle.std.specs.Prelude.{◌≡◌, ◌∷◌, IfOk};
ghost use Rattle.vn_shell.specs.Commands.Ifconfig.{pair_of, adding, inet_of, set_of, act_of, valued_of, ifconfig_of};
ghost use Rattle.std.specs.Option.{option_map};
ghost use Rattle.vn_types.specs.AddressWords.{prefix_of};
ghost use Rattle.vn_shell.specs.Words.{texts};

use crate::words::read_named;
use std::alloc::Global;
use vn_cells::Command;
use vn_types::{
    IfName, NoMemory, Prefix, read_ifname, read_ip4, read_mac, read_number, read_prefix,
};

/// The command that the words behind `ifconfig` mean.
#[tactic(auto, unfolding(crate::specs::Commands::Ifconfig::ifconfig_of))]
pub(crate) fn read_ifconfig(alloc: Global, words: &[&[u8]]) -> Result<Option<Command>, NoMemory>
    ensures { IfOk result (λ r. r ≡ ifconfig_of (texts words.now)) }
{
    match words {
        [name, verb] => {
            if *verb == b"create".as_slice() {
                return Ok(read_pair(name));
            }
            let Some(name) = read_ifname(name) else {
                return Ok(None);
            };
            Ok(read_act(name, verb))
        }
        [name, verb, word, words @ ..] => {
            let Some(name) = read_ifname(name) else {
                return Ok(None);
            };
            read_valued(alloc, name, verb, word, words)
        }
        _ => Ok(None),
    }
}

/// A word with values.
#[tactic(auto, unfolding(crate::specs::Commands::Ifconfig::valued_of))]
fn read_valued(
    alloc: Global,
    name: IfName,
    verb: &[u8],
    word: &[u8],
    words: &[&[u8]],
) -> Result<Option<Command>, NoMemory>
    ensures { IfOk result (λ r. r ≡ valued_of name verb.now word.now (texts words.now)) }
{
    if verb == b"inet".as_slice() {
        return Ok(read_inet(name, word, words));
    }
    if !words.is_empty() {
        return Ok(None);
    }
    read_set(alloc, name, verb, word)
}

/// The pair that is made: `epair` or `epairN`.
#[tactic(auto, unfolding(crate::specs::Commands::Ifconfig::pair_of))]
fn read_pair(word: &[u8]) -> Option<Command>
    ensures { result ≡ pair_of word.now }
{
    if word == b"epair".as_slice() {
        return Some(Command::EpairAny);
    }
    let unit = read_number(word.strip_prefix(b"epair")?)?;
    if unit <= 4_294_967_295 {
        return Some(Command::EpairCreate { unit: unit as u32 });
    }
    None
}

/// `PREFIX [alias]` or `IP -alias`.
#[tactic(auto, unfolding(crate::specs::Commands::Ifconfig::inet_of))]
fn read_inet(name: IfName, word: &[u8], options: &[&[u8]]) -> Option<Command>
    ensures { result ≡ inet_of name (word.now ∷ texts options.now) }
{
    match options {
        [] => read_added(name, word),
        [option] => {
            if *option == b"alias".as_slice() {
                return read_added(name, word);
            }
            if *option == b"-alias".as_slice() {
                let ip = read_ip4(word)?;
                return Some(Command::InetRemove { name, ip });
            }
            None
        }
        _ => None,
    }
}

fn read_added(name: IfName, word: &[u8]) -> Option<Command>
    ensures { result ≡ option_map (adding name) (prefix_of word.now) }
{
    let Prefix { net, len } = read_prefix(word)?;
    Some(Command::Inet { name, ip: net, len })
}

/// A word with one value: `ether MAC`, `vnet P` or `-vnet P`.
#[tactic(auto, unfolding(crate::specs::Commands::Ifconfig::set_of))]
fn read_set(
    alloc: Global,
    name: IfName,
    verb: &[u8],
    word: &[u8],
) -> Result<Option<Command>, NoMemory>
    ensures { IfOk result (λ r. r ≡ set_of name verb.now word.now) }
{
    if verb == b"ether".as_slice() {
        return Ok(read_mac(word).map(|mac| Command::Ether { name, mac }));
    }
    if verb == b"vnet".as_slice() {
        return Ok(read_named(alloc, word)?.map(|path| Command::Vnet { name, path }));
    }
    if verb == b"-vnet".as_slice() {
        return Ok(read_named(alloc, word)?.map(|path| Command::VnetBack { name, path }));
    }
    Ok(None)
}

/// A word alone: `destroy`, `up` or `down`.
#[tactic(auto, unfolding(crate::specs::Commands::Ifconfig::act_of))]
fn read_act(name: IfName, verb: &[u8]) -> Option<Command>
    ensures { result ≡ act_of name verb.now }
{
    if verb == b"destroy".as_slice() {
        return Some(Command::Destroy { name });
    }
    if verb == b"up".as_slice() {
        return Some(Command::Up { name });
    }
    if verb == b"down".as_slice() {
        return Some(Command::Down { name });
    }
    None
}
