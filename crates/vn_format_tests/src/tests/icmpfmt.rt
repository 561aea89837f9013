use std::test::Fail;
use vn_icmpfmt::{IcmpBad, IcmpView, Quote, law_of_refusal, read_quote, write_echo, write_error};
use vn_types::Ip4;

// An echo request as another system's ping sends it, with identifier 1 and sequence number 1.
const ECHO: [u8; 40] = *b"\x08\x00\x4d\x5a\x00\x01\x00\x01abcdefghijklmnopqrstuvwabcdefghi";

// Time exceeded in transit, about an echo from 10.0.0.1 to 10.0.1.1 whose TTL was 1.
const EXCEEDED: [u8; 36] = [
    0x0b, 0x00, 0xf4, 0xff, 0x00, 0x00, 0x00, 0x00, //
    0x45, 0x00, 0x00, 0x54, 0x00, 0x00, 0x00, 0x00, 0x01, 0x01, 0xa4, 0xa8, //
    0x0a, 0x00, 0x00, 0x01, 0x0a, 0x00, 0x01, 0x01, //
    0x08, 0x00, 0xf7, 0xff, 0x00, 0x00, 0x00, 0x00,
];

#[test]
fn echoes_are_written_and_read(rt: HostRuntime) -> Result<(), Fail> {
    let mut out = [0xaa; 40];
    write_echo(&mut out, 8, 1, 1, &ECHO[8..]);
    assert_eq!(rt; out.as_slice(), ECHO.as_slice());
    let echo = IcmpView::read(&ECHO).ok().ok_or("an echo")?;
    assert_eq!(rt; (echo.kind(), echo.code()), (8, 0));
    assert_eq!(rt; (echo.id(), echo.seq()), (1, 1));
    assert_eq!(rt; echo.rest(), &ECHO[8..]);
    // a ping's: 56 zeros, and identifier and sequence number 0
    let mut zeros = [0xaa; 64];
    write_echo(&mut zeros, 8, 0, 0, &[0; 56]);
    assert_eq!(rt; &zeros[..4], b"\x08\x00\xf7\xff".as_slice());
    assert!(rt; IcmpView::read(&zeros).is_ok());
    Ok(())
}

#[test]
fn errors_are_written_and_read(rt: HostRuntime) -> Result<(), Fail> {
    let mut out = [0xaa; 36];
    write_error(&mut out, 11, 0, &EXCEEDED[8..]);
    assert_eq!(rt; out.as_slice(), EXCEEDED.as_slice());
    let error = IcmpView::read(&EXCEEDED).ok().ok_or("an error")?;
    assert_eq!(rt; (error.kind(), error.code()), (11, 0));
    let quote = Quote {
        proto: 1,
        src: Ip4(0x0a00_0001),
        dst: Ip4(0x0a00_0101),
        first: *b"\x08\x00\xf7\xff\x00\x00\x00\x00",
    };
    assert!(rt; read_quote(error.rest()) == Some(quote));
    Ok(())
}

#[test]
fn refusals(rt: HostRuntime) {
    law_of_refusal();
    let rows: [(&[u8], Option<IcmpBad>); 7] = [
        (b"", Some(IcmpBad::Short)),
        (b"\x08\x00\xf7\xff\x00\x00\x00", Some(IcmpBad::Short)),
        (b"\x08\x00\xf7\xff\x00\x00\x00\x00", None),
        (b"\x08\x00\xf7\xfe\x00\x00\x00\x00", Some(IcmpBad::Checksum)),
        (b"\x00\x00\x00\x00\x00\x00\x00\x00", Some(IcmpBad::Checksum)),
        (b"\x08\x00\xf6\xff\x00\x00\x00\x00\x01", None),
        (
            b"\x08\x00\xf7\xfe\x00\x00\x00\x00\x01",
            Some(IcmpBad::Checksum),
        ),
    ];
    for (body, refusal) in rows {
        let read = IcmpView::read(body).err();
        assert!(rt; read == refusal, "{body:?}");
    }
}

#[test]
fn quotes(rt: HostRuntime) {
    let rows = [
        // octets of the quote, the first of them, the first octet of the quoted data
        (28, 0x45, Some(0x08)),
        (27, 0x45, None),
        (20, 0x45, None),
        (19, 0x45, None),
        (28, 0x44, None),
        (28, 0x65, None),
        (28, 0x46, None),
        (31, 0x46, None),
        (32, 0x46, Some(0x00)),
    ];
    for (length, lead, first) in rows {
        let mut octets = [0; 32];
        for (octet, quoted) in octets.iter_mut().zip(&EXCEEDED[8..]) {
            *octet = *quoted;
        }
        octets[0] = lead;
        let quote = read_quote(octets.get(..length).unwrap_or(&[]));
        assert!(rt;
            quote.map(|q| q.first[0]) == first,
            "{length} octets, first {lead}"
        );
    }
}

#[test]
fn long_messages(rt: HostRuntime) {
    let mut data = [0; 65538];
    data[65537] = 1;
    let mut out = [0; 65546];
    write_echo(&mut out, 8, 0, 0, &data);
    assert_eq!(rt; &out[..4], b"\x08\x00\xf7\xfe".as_slice());
    assert!(rt; IcmpView::read(&out).is_ok());
}
