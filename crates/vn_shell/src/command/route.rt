//! The words behind `route`.

ghost use Rattle.std.specs.Prelude.{◌≡◌};
ghost use Rattle.vn_types.specs.AddressWords.{ip4_of};
ghost use Rattle.vn_cells.specs.declared.command.Command.TheVariants as command;
ghost use Rattle.vn_shell.specs.Commands.Route.{dest_of, past_net, route_of};
ghost use Rattle.vn_shell.specs.Words.{of_one, of_two, texts};

use vn_cells::Command;
use vn_rules::network_of;
use vn_types::{Ip4, Prefix, read_ip4, read_prefix};

/// The command that the words behind `route` mean.
#[tactic(auto, unfolding(crate::specs::Commands::Route::route_of))]
pub(crate) fn read_route(words: &[&[u8]]) -> Option<Command>
    ensures { result ≡ route_of (texts words.now) }
{
    let [verb, words @ ..] = words else {
        return None;
    };
    if *verb == b"add".as_slice() {
        return read_add(past_net(words));
    }
    if *verb == b"delete".as_slice() {
        return read_delete(past_net(words));
    }
    None
}

/// The words behind `-net`, where it stands there.
fn past_net<'w, 'a>(words: &'w [&'a [u8]]) -> &'w [&'a [u8]]
    ensures { texts result.now ≡ past_net (texts words.now) }
{
    match words {
        [b"-net", words @ ..] => words,
        _ => words,
    }
}

fn read_add(words: &[&[u8]]) -> Option<Command>
    ensures { result ≡ of_two dest_of ip4_of command.RouteAdd (texts words.now) }
{
    let [dest, gateway] = words else {
        return None;
    };
    let to = read_dest(dest)?;
    let via = read_ip4(gateway)?;
    Some(Command::RouteAdd { to, via })
}

fn read_delete(words: &[&[u8]]) -> Option<Command>
    ensures { result ≡ of_one dest_of command.RouteDelete (texts words.now) }
{
    let [dest] = words else {
        return None;
    };
    let to = read_dest(dest)?;
    Some(Command::RouteDelete { to })
}

/// Where a route goes: `default`, an address or a network.
#[tactic(auto, unfolding(crate::specs::Commands::Route::dest_of))]
fn read_dest(word: &[u8]) -> Option<Prefix>
    ensures { result ≡ dest_of word.now }
{
    if word == b"default".as_slice() {
        return Some(Prefix {
            net: Ip4(0),
            len: 0,
        });
    }
    if let Some(net) = read_ip4(word) {
        return Some(Prefix { net, len: 32 });
    }
    let Prefix { net, len } = read_prefix(word)?;
    Some(Prefix {
        net: network_of(net, len),
        len,
    })
}
