//! The words behind `ping`.

ghost use Rattle.std.specs.Prelude.{◌≡◌};
ghost use Rattle.vn_shell.specs.Commands.Ping.{past_count, probe_of, ping_of};
ghost use Rattle.vn_shell.specs.Words.{texts};

use crate::words::read_ttl;
use vn_cells::Command;
use vn_types::read_ip4;

/// The command that the words behind `ping` mean.
pub(crate) fn read_ping(words: &[&[u8]]) -> Option<Command>
    ensures { result ≡ ping_of (texts words.now) }
{
    read_probe(past_count(words))
}

/// The words behind `-c 1`, where it stands there.
fn past_count<'w, 'a>(words: &'w [&'a [u8]]) -> &'w [&'a [u8]]
    ensures { texts result.now ≡ past_count (texts words.now) }
{
    match words {
        [b"-c", b"1", words @ ..] => words,
        _ => words,
    }
}

#[tactic(auto, unfolding(crate::specs::Commands::Ping::probe_of))]
fn read_probe(words: &[&[u8]]) -> Option<Command>
    ensures { result ≡ probe_of (texts words.now) }
{
    match words {
        [ip] => {
            let ip = read_ip4(ip)?;
            Some(Command::Ping { ttl: None, ip })
        }
        [b"-m", ttl, ip] => {
            let ttl = read_ttl(ttl)?;
            let ip = read_ip4(ip)?;
            Some(Command::Ping { ttl: Some(ttl), ip })
        }
        _ => None,
    }
}
