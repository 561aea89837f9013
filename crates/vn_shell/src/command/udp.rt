//! The words behind `udp`.

ghost use Rattle.std.specs.Prelude.{◌≡◌, IfOk};
ghost use Rattle.std.specs.Option.{option_map};
ghost use Rattle.vn_shell.specs.Commands.Udp.{digits_of, zeros_of, payload_of, any_ip_of, bind_of, endpoint_of};
ghost use Rattle.vn_shell.specs.Commands.Udp.{peer_of, send_of, limit_of, socket_of, udp_of, connecting};
ghost use Rattle.vn_shell.specs.Words.{texts};

use crate::words::{read_port, read_ttl};
use hex::FromHexError;
use std::alloc::Global;
use vn_cells::{Command, Payload};
use vn_types::{Ip4, NoMemory, Octets, SockName, read_ip4, read_number};

/// The most hexadecimal digits of a datagram's data.
const DIGITS_MAX: usize = 4096;

/// The most octets of zero.
const ZEROS_MAX: u64 = 20_000;

/// The command that the words behind `udp` mean.
#[tactic(auto, unfolding(crate::specs::Commands::Udp::udp_of))]
pub(crate) fn read_udp(alloc: Global, words: &[&[u8]]) -> Result<Option<Command>, NoMemory>
    ensures { IfOk result (λ r. r ≡ udp_of (texts words.now)) }
{
    let [verb, sock, words @ ..] = words else {
        return Ok(None);
    };
    let Some(sock) = SockName::read(alloc, sock)? else {
        return Ok(None);
    };
    read_socket(alloc, sock, verb, words)
}

/// What is done to a socket.
#[tactic(auto, unfolding(crate::specs::Commands::Udp::socket_of))]
fn read_socket(
    alloc: Global,
    sock: SockName,
    verb: &[u8],
    words: &[&[u8]],
) -> Result<Option<Command>, NoMemory>
    ensures { IfOk result (λ r. r ≡ socket_of sock verb.now (texts words.now)) }
{
    if verb == b"open".as_slice() {
        return Ok(words.is_empty().then_some(Command::UdpOpen { sock }));
    }
    if verb == b"recv".as_slice() {
        return Ok(words.is_empty().then_some(Command::UdpRecv { sock }));
    }
    if verb == b"close".as_slice() {
        return Ok(words.is_empty().then_some(Command::UdpClose { sock }));
    }
    if verb == b"bind".as_slice() {
        return Ok(read_bind(sock, words));
    }
    if verb == b"connect".as_slice() {
        return Ok(read_connect(sock, words));
    }
    if verb == b"send".as_slice() {
        return read_send(alloc, sock, words);
    }
    if verb == b"ttl".as_slice() {
        return Ok(read_limit(sock, words));
    }
    Ok(None)
}

/// `IP PORT`, where IP may be `*`.
fn read_bind(sock: SockName, words: &[&[u8]]) -> Option<Command>
    ensures { result ≡ bind_of sock (texts words.now) }
{
    let [ip, port] = words else {
        return None;
    };
    let ip = read_any_ip(ip)?;
    let port = read_port(port)?;
    Some(Command::UdpBind { sock, ip, port })
}

/// An address, or `*` for none.
fn read_any_ip(word: &[u8]) -> Option<Option<Ip4>>
    ensures { result ≡ any_ip_of word.now }
{
    if word == b"*".as_slice() {
        return Some(None);
    }
    Some(Some(read_ip4(word)?))
}

/// `IP PORT`.
fn read_endpoint(words: &[&[u8]]) -> Option<(Ip4, u16)>
    ensures { result ≡ endpoint_of (texts words.now) }
{
    let [ip, port] = words else {
        return None;
    };
    let ip = read_ip4(ip)?;
    let port = read_port(port)?;
    Some((ip, port))
}

fn read_connect(sock: SockName, words: &[&[u8]]) -> Option<Command>
    ensures { result ≡ option_map (connecting sock) (endpoint_of (texts words.now)) }
{
    let (ip, port) = read_endpoint(words)?;
    Some(Command::UdpConnect { sock, ip, port })
}

/// `[IP PORT]`.
#[tactic(auto, unfolding(crate::specs::Commands::Udp::peer_of))]
fn read_peer(words: &[&[u8]]) -> Option<Option<(Ip4, u16)>>
    ensures { result ≡ peer_of (texts words.now) }
{
    match words {
        [] => Some(None),
        [_, ..] => Some(Some(read_endpoint(words)?)),
    }
}

/// `DATA [IP PORT]`.
#[tactic(auto, unfolding(crate::specs::Commands::Udp::send_of))]
fn read_send(alloc: Global, sock: SockName, words: &[&[u8]]) -> Result<Option<Command>, NoMemory>
    ensures { IfOk result (λ r. r ≡ send_of sock (texts words.now)) }
{
    let [word, words @ ..] = words else {
        return Ok(None);
    };
    let Some(payload) = read_payload(alloc, word)? else {
        return Ok(None);
    };
    let Some(to) = read_peer(words) else {
        return Ok(None);
    };
    Ok(Some(Command::UdpSend { sock, payload, to }))
}

/// `N`, a time to live.
fn read_limit(sock: SockName, words: &[&[u8]]) -> Option<Command>
    ensures { result ≡ limit_of sock (texts words.now) }
{
    let [word] = words else {
        return None;
    };
    let ttl = read_ttl(word)?;
    Some(Command::UdpTtl { sock, ttl })
}

/// The data of a datagram: hexadecimal digits, or `zero:` and how many octets of zero.
#[tactic(auto, unfolding(crate::specs::Commands::Udp::payload_of))]
fn read_payload(alloc: Global, word: &[u8]) -> Result<Option<Payload>, NoMemory>
    ensures { IfOk result (λ r. r ≡ payload_of word.now) }
{
    match word.strip_prefix(b"zero:") {
        Some(text) => Ok(read_zeros(text)),
        None => read_digits(alloc, word),
    }
}

#[tactic(auto, unfolding(crate::specs::Commands::Udp::zeros_of))]
fn read_zeros(text: &[u8]) -> Option<Payload>
    ensures { result ≡ zeros_of text.now }
{
    let number = read_number(text)?;
    if number <= ZEROS_MAX {
        return Some(Payload::Zero(number as u16));
    }
    None
}

#[tactic(auto, unfolding(crate::specs::Commands::Udp::digits_of))]
fn read_digits(alloc: Global, word: &[u8]) -> Result<Option<Payload>, NoMemory>
    ensures { IfOk result (λ r. r ≡ digits_of word.now) }
{
    if word.len() < 2 || DIGITS_MAX < word.len() {
        return Ok(None);
    }
    match hex::decode(alloc, word) {
        Ok(octets) => {
            let octets = Octets::from_slice(alloc, octets.as_slice())?;
            Ok(Some(Payload::Digits(octets)))
        }
        Err(FromHexError::OutOfMemory) => Err(NoMemory),
        Err(_) => Ok(None),
    }
}
