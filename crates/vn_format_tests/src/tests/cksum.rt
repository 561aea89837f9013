use std::test::Fail;
use vn_cksum::{
    law_of_carries, law_of_complement, law_of_order, law_of_pieces, law_of_replacement,
    law_of_zero, sum16, sum16_parts,
};

#[test]
fn sums(rt: HostRuntime) -> Result<(), Fail> {
    law_of_carries();
    law_of_order();
    law_of_pieces();
    law_of_replacement();
    law_of_complement();
    law_of_zero();
    // the first octets, which have an even length; those behind them; the sum of both in a row
    let rows: [(&[u8], &[u8], u16); 9] = [
        (b"", b"", 0),
        (b"\x00\x00\x00", b"", 0),
        // RFC 1071, section 3
        (b"\x00\x01\xf2\x03", b"\xf4\xf5\xf6\xf7", 0xddf2),
        (b"\x00\x01", b"\xf2\x03\xf4\xf5\xf6\xf7", 0xddf2),
        // an odd last octet is the high half of a word
        (b"\x00\x01", b"\xf2", 0xf201),
        // a carry that makes another carry
        (b"\xff\xff", b"\xff\xff\x00\x01", 0x0001),
        // the header of an echo from 10.0.0.1 to 10.0.0.2, without its checksum 66a7 and with it
        (
            b"\x45\x00\x00\x54\x00\x00\x00\x00\x40\x01",
            b"\x00\x00\x0a\x00\x00\x01\x0a\x00\x00\x02",
            0x9958,
        ),
        (
            b"\x45\x00\x00\x54\x00\x00\x00\x00\x40\x01",
            b"\x66\xa7\x0a\x00\x00\x01\x0a\x00\x00\x02",
            0xffff,
        ),
        // an echo of zeros, its identifier and its sequence number 0
        (b"\x08\x00\xf7\xff\x00\x00\x00\x00", &[0; 56], 0xffff),
    ];
    for (first, second, sum) in rows {
        if first.len() % 2 == 0 {
            assert_eq!(rt; sum16_parts(first, second), sum);
        }
        if second.is_empty() {
            assert_eq!(rt; sum16(first), sum);
        }
    }
    assert_eq!(rt; sum16(b"\x00\x01\xf2\x03\xf4\xf5\xf6\xf7"), 0xddf2);
    assert_eq!(rt; sum16(&[0xff; 65536]), 0xffff);
    Ok(())
}
