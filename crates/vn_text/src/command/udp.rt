ghost use Rattle.std.specs.Prelude.{◌≡◌, ◌++◌, codes, decimal, OnOk};
ghost use Rattle.std.specs.Io.{StartsWith};
ghost use Rattle.std.specs.List.{flat_map};
ghost use Rattle.vn_types.specs.AddressWords.{hex_octet};
ghost use Rattle.vn_cells.specs.texts.Programs.{bind_text, connect_text, endpoint_text, local_text, payload_text, send_text, socket_text, socket_ttl_text};

use crate::put::{put, put_assigned, put_number, put_octet};
use vn_cells::Payload;
use vn_types::{Ip4, NoMemory, SockName, write_ip4};

/// A socket, and what is asked of it.
pub(crate) fn put_socket(verb: &[u8], sock: &SockName, out: &mut Vec<u8>) -> Result<(), NoMemory>
    ensures put { OnOk result (out.new.items ≡ out.old.items ++ socket_text verb.now sock.now) }
    ensures front { StartsWith out.new.items out.old.items }
{
    put(b"udp ", out)?;
    put(verb, out)?;
    put(sock.text(), out)
}

/// A socket gets its address and port.
pub(crate) fn put_bind(
    sock: &SockName,
    ip: Option<Ip4>,
    port: u16,
    out: &mut Vec<u8>,
) -> Result<(), NoMemory>
    ensures put { OnOk result (out.new.items ≡ out.old.items ++ bind_text sock.now ip port) }
    ensures front { StartsWith out.new.items out.old.items }
{
    put_socket(b"bind ", sock, out)?;
    put(b" ", out)?;
    put_local(ip, out)?;
    put(b" ", out)?;
    put_number(u64::from(port), out)
}

/// An address, or `*` for none.
fn put_local(ip: Option<Ip4>, out: &mut Vec<u8>) -> Result<(), NoMemory>
    ensures put { OnOk result (out.new.items ≡ out.old.items ++ local_text ip) }
    ensures front { StartsWith out.new.items out.old.items }
{
    match ip {
        Some(ip) => write_ip4(ip, out),
        None => put(b"*", out),
    }
}

/// A socket gets its peer.
pub(crate) fn put_connect(
    sock: &SockName,
    ip: Ip4,
    port: u16,
    out: &mut Vec<u8>,
) -> Result<(), NoMemory>
    ensures put { OnOk result (out.new.items ≡ out.old.items ++ connect_text sock.now ip port) }
    ensures front { StartsWith out.new.items out.old.items }
{
    put(b"udp connect ", out)?;
    put(sock.text(), out)?;
    put_endpoint(Some((ip, port)), out)
}

/// A datagram is sent.
pub(crate) fn put_send(
    sock: &SockName,
    payload: &Payload,
    to: Option<(Ip4, u16)>,
    out: &mut Vec<u8>,
) -> Result<(), NoMemory>
    ensures put { OnOk result (out.new.items ≡ out.old.items ++ send_text sock.now payload.now to) }
    ensures front { StartsWith out.new.items out.old.items }
{
    put(b"udp send ", out)?;
    put(sock.text(), out)?;
    put(b" ", out)?;
    put_payload(payload, out)?;
    put_endpoint(to, out)
}

/// Data in the form in which it was given.
#[tactic(auto, unfolding(vn_cells::specs::texts::Programs::payload_text))]
fn put_payload(payload: &Payload, out: &mut Vec<u8>) -> Result<(), NoMemory>
    ensures put { OnOk result (out.new.items ≡ out.old.items ++ payload_text payload.now) }
    ensures front { StartsWith out.new.items out.old.items }
{
    match payload {
        Payload::Digits(octets) => put_octets(octets.as_slice(), out),
        Payload::Zero(length) => put_zeros(*length, out),
    }
}

fn put_zeros(length: u16, out: &mut Vec<u8>) -> Result<(), NoMemory>
    ensures put { OnOk result (out.new.items ≡ out.old.items ++ codes "zero:" ++ decimal length) }
    ensures front { StartsWith out.new.items out.old.items }
{
    put(b"zero:", out)?;
    put_number(u64::from(length), out)
}

fn put_octets(octets: &[u8], out: &mut Vec<u8>) -> Result<(), NoMemory>
    ensures put { OnOk result (out.new.items ≡ out.old.items ++ flat_map hex_octet octets.now) }
    ensures front { StartsWith out.new.items out.old.items }
{
    for octet in octets {
        put_octet(*octet, out)?;
    }
    Ok(())
}

/// A destination that is given.
fn put_endpoint(to: Option<(Ip4, u16)>, out: &mut Vec<u8>) -> Result<(), NoMemory>
    ensures put { OnOk result (out.new.items ≡ out.old.items ++ endpoint_text to) }
    ensures front { StartsWith out.new.items out.old.items }
{
    let Some((ip, port)) = to else {
        return Ok(());
    };
    put(b" ", out)?;
    write_ip4(ip, out)?;
    put(b" ", out)?;
    put_number(u64::from(port), out)
}

/// A socket gets its time to live.
pub(crate) fn put_socket_ttl(sock: &SockName, ttl: u8, out: &mut Vec<u8>) -> Result<(), NoMemory>
    ensures put { OnOk result (out.new.items ≡ out.old.items ++ socket_ttl_text sock.now ttl) }
    ensures front { StartsWith out.new.items out.old.items }
{
    put_assigned(b"udp ttl ", sock.text(), b" ", u64::from(ttl), out)
}
