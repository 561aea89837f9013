ghost use Rattle.std.specs.Prelude.{◌≡◌, ℕ, ◌+◌, ◌<◌, length};
ghost use Rattle.vn_types.specs.Fields.{FitWidths};
ghost use Rattle.vn_cksum.specs.Sums.{sum_of};
ghost use Rattle.vn_icmpfmt.specs.Grammar.{icmp_of};
ghost use Rattle.vn_icmpfmt.specs.Messages.{fields, header_size, header_for, message_with, error_with, echo, error, message_for, summed};

use crate::sum::put_checksum;
use byteorder::{BigEndian, ByteOrder};

/// Writes an echo or an echo reply, as its type says, with its data.
pub fn write_echo(out: &mut [u8], kind: u8, id: u16, seq: u16, octets: &[u8])
    requires { length out.old ≡ header_size + length octets.now }
    ensures written { out.new ≡ summed (message_with (echo kind id seq octets.now)) }
    ensures sums_up { sum_of out.new ≡ 65535 }
    // What is written is read.
    ensures read_back { icmp_of out.new ≡ Ok (echo kind id seq octets.now) }
{
    write_message(out, kind, 0, id, seq, octets);
}

/// Writes an error about the datagram whose header and first octets of data are quoted.
pub fn write_error(out: &mut [u8], kind: u8, code: u8, quoted: &[u8])
    requires { length out.old ≡ header_size + length quoted.now }
    ensures written { out.new ≡ summed (error_with kind code quoted.now) }
    ensures sums_up { sum_of out.new ≡ 65535 }
    // What is written is read; unused octets read as zeros.
    ensures read_back { icmp_of out.new ≡ Ok (error kind code quoted.now) }
{
    // RFC 792, "Destination Unreachable Message" and "Time Exceeded Message": four octets are unused.
    write_message(out, kind, code, 0, 0, quoted);
}

fn write_message(out: &mut [u8], kind: u8, code: u8, id: u16, seq: u16, rest: &[u8])
    requires { length out.old ≡ header_size + length rest.now }
    ensures written { out.new ≡ summed (message_with (message_for kind code id seq rest.now)) }
    ensures sums_up { sum_of out.new ≡ 65535 }
    ensures read_back { icmp_of out.new ≡ Ok (message_for kind code id seq rest.now) }
{
    write_unsummed(out, kind, code, id, seq, rest);
    put_checksum(out);
}

// RFC 792: "For computing the checksum, the checksum field should be zero."
fn write_unsummed(out: &mut [u8], kind: u8, code: u8, id: u16, seq: u16, rest: &[u8])
    requires { length out.old ≡ header_size + length rest.now }
    ensures written { out.new ≡ message_with (message_for kind code id seq rest.now) 0 }
    ensures fit { (checksum : ℕ) → checksum < 65536
        → FitWidths (fields (header_for (message_for kind code id seq rest.now) checksum)) }
{
    let (kinds, tail) = out.split_at_mut(2);
    kinds[0] = kind;
    kinds[1] = code;
    let (checksum, tail) = tail.split_at_mut(2);
    BigEndian::write_u16(checksum, 0);
    let (first, tail) = tail.split_at_mut(2);
    BigEndian::write_u16(first, id);
    let (second, data) = tail.split_at_mut(2);
    BigEndian::write_u16(second, seq);
    data.copy_from_slice(rest);
}
