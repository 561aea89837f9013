//! The words behind `arp`.

ghost use Rattle.std.specs.Prelude.{◌≡◌};
ghost use Rattle.vn_types.specs.AddressWords.{ip4_of, mac_of};
ghost use Rattle.vn_cells.specs.declared.command.Command.TheVariants as command;
ghost use Rattle.vn_shell.specs.Commands.Arp.{arp_of};
ghost use Rattle.vn_shell.specs.Words.{of_one, of_two, texts};

use vn_cells::Command;
use vn_types::{read_ip4, read_mac};

/// The command that the words behind `arp` mean.
#[tactic(auto, unfolding(crate::specs::Commands::Arp::arp_of))]
pub(crate) fn read_arp(words: &[&[u8]]) -> Option<Command>
    ensures { result ≡ arp_of (texts words.now) }
{
    let [option, words @ ..] = words else {
        return None;
    };
    if *option == b"-s".as_slice() {
        return read_set(words);
    }
    if *option == b"-d".as_slice() {
        return read_delete(words);
    }
    None
}

fn read_set(words: &[&[u8]]) -> Option<Command>
    ensures { result ≡ of_two ip4_of mac_of command.ArpSet (texts words.now) }
{
    let [ip, mac] = words else {
        return None;
    };
    let ip = read_ip4(ip)?;
    let mac = read_mac(mac)?;
    Some(Command::ArpSet { ip, mac })
}

fn read_delete(words: &[&[u8]]) -> Option<Command>
    ensures { result ≡ of_one ip4_of command.ArpDelete (texts words.now) }
{
    let [ip] = words else {
        return None;
    };
    let ip = read_ip4(ip)?;
    Some(Command::ArpDelete { ip })
}
