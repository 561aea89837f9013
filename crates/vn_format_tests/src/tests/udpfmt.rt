use std::test::Fail;
use vn_types::Ip4;
use vn_udpfmt::{UdpBad, UdpView, law_of_headers, law_of_refusal, write_udp};

const A: Ip4 = Ip4(0x0a00_0001);

const B: Ip4 = Ip4(0x0a00_0002);

#[test]
fn datagrams(rt: HostRuntime) -> Result<(), Fail> {
    law_of_headers();
    law_of_refusal();
    // a datagram from 10.0.0.1 to 10.0.0.2; its ports; whether it has a checksum
    let rows: [(&[u8], u16, u16, bool); 4] = [
        // its words have the sum 0xffff: what is computed is 0, and is sent as 0xffff
        (b"\x13\x88\x00\x07\x00\x0a\xff\xff\xd8\x48", 5000, 7, true),
        (b"\x13\x88\x00\x07\x00\x0a\x00\x00\xd8\x48", 5000, 7, false),
        // an odd last octet is the high half of a word
        (b"\xc0\x00\x00\x07\x00\x09\xea\xd1\x41", 49152, 7, true),
        (b"\xc0\x00\x00\x07\x00\x08\x2b\xd4", 49152, 7, true),
    ];
    for (octets, sport, dport, sum) in rows {
        let view = UdpView::read(octets, A, B).ok().ok_or("no datagram")?;
        assert_eq!(rt; view.sport(), sport);
        assert_eq!(rt; view.dport(), dport);
        let payload = view.payload();
        let mut out = [0xee; 64];
        let len = octets.len();
        if len > 64 || dport == 0 || len != 8 + payload.len() {
            return Err("no row".into());
        }
        let (front, _) = out.split_at_mut(len);
        write_udp(front, A, B, sport, dport, payload, sum);
        assert_eq!(rt; &front[..], octets);
    }
    Ok(())
}

#[test]
fn refusals(rt: HostRuntime) -> Result<(), Fail> {
    // the octets; the destination; why they are refused, or the length of the payload
    let rows: [(&[u8], Ip4, Result<usize, UdpBad>); 14] = [
        (b"", B, Err(UdpBad::Short)),
        (b"\x13\x88\x00\x07\x00\x08\x00", B, Err(UdpBad::Short)),
        (b"\x13\x88\x00\x07\x00\x08\x00\x00", B, Ok(0)),
        (b"\x13\x88\x00\x07\x00\x07\x00\x00", B, Err(UdpBad::Length)),
        (b"\x13\x88\x00\x07\x00\x09\x00\x00", B, Err(UdpBad::Length)),
        (
            b"\x13\x88\x00\x07\x00\x0b\xff\xff\xd8\x48",
            B,
            Err(UdpBad::Length),
        ),
        (b"\x13\x88\x00\x07\x00\x0a\xff\xff\xd8\x48", B, Ok(2)),
        // octets behind the length count for nothing
        (
            b"\x13\x88\x00\x07\x00\x0a\xff\xff\xd8\x48\x01\x02\x03",
            B,
            Ok(2),
        ),
        (
            b"\x13\x88\x00\x07\x00\x0a\xff\xfe\xd8\x48",
            B,
            Err(UdpBad::Checksum),
        ),
        // a datagram that came to another address
        (
            b"\x13\x88\x00\x07\x00\x0a\xff\xff\xd8\x48",
            Ip4(0x0a00_0003),
            Err(UdpBad::Checksum),
        ),
        (
            b"\x13\x88\x00\x00\x00\x0a\xff\xff\xd8\x48",
            B,
            Err(UdpBad::Checksum),
        ),
        (
            b"\x13\x88\x00\x00\x00\x0a\x00\x07\xd8\x48",
            B,
            Err(UdpBad::Port),
        ),
        (
            b"\x13\x88\x00\x00\x00\x0a\x00\x00\xd8\x48",
            B,
            Err(UdpBad::Port),
        ),
        // the source port 0 is no reason
        (b"\x00\x00\x00\x07\x00\x0a\x00\x00\xd8\x48", B, Ok(2)),
    ];
    for (octets, dst, want) in rows {
        match UdpView::read(octets, A, dst) {
            Ok(view) => assert!(rt; want == Ok(view.payload().len())),
            Err(bad) => assert!(rt; want == Err(bad)),
        }
    }
    Ok(())
}
