use std::test::Fail;
use vn_ip4fmt::{Ip4Head, Ip4View, IpBad, decrement, law_of_headers, law_of_refusal, write_header};
use vn_types::Ip4;

const A: Ip4 = Ip4(0x0a00_0001);

const B: Ip4 = Ip4(0x0a00_0002);

fn head(flags: (bool, bool), offset: u16, ttl: u8, proto: u8, src: Ip4, dst: Ip4) -> Ip4Head {
    Ip4Head {
        tos: 0,
        id: 0,
        df: flags.0,
        mf: flags.1,
        offset,
        ttl,
        proto,
        src,
        dst,
    }
}

#[test]
fn headers(rt: HostRuntime) -> Result<(), Fail> {
    law_of_headers();
    law_of_refusal();
    let none = (false, false);
    let more = (false, true);
    // the header; its total length; its fields; the checksum once the TTL is one less, which is 0x100 more
    let rows = [
        // an echo of 56 octets
        (
            b"\x45\x00\x00\x54\x00\x00\x00\x00\x40\x01\x66\xa7\x0a\x00\x00\x01\x0a\x00\x00\x02",
            84,
            head(none, 0, 64, 1, A, B),
            0x67a7,
        ),
        // a UDP datagram of 2 octets
        (
            b"\x45\x00\x00\x1e\x00\x00\x00\x00\x40\x11\x66\xcd\x0a\x00\x00\x01\x0a\x00\x00\x02",
            30,
            head(none, 0, 64, 17, A, B),
            0x67cd,
        ),
        // an echo that comes to a router with TTL 1
        (
            b"\x45\x00\x00\x54\x00\x00\x00\x00\x01\x01\xa4\xa8\x0a\x00\x00\x01\x0a\x00\x01\x01",
            84,
            head(none, 0, 1, 1, A, Ip4(0x0a00_0101)),
            0xa5a8,
        ),
        // three fragments
        (
            b"\x45\x00\x00\x64\x00\x00\x20\x00\x40\x11\x46\x87\x0a\x00\x00\x01\x0a\x00\x00\x02",
            100,
            head(more, 0, 64, 17, A, B),
            0x4787,
        ),
        (
            b"\x45\x00\x00\x64\x00\x00\x20\x0a\x40\x11\x46\x7d\x0a\x00\x00\x01\x0a\x00\x00\x02",
            100,
            head(more, 10, 64, 17, A, B),
            0x477d,
        ),
        (
            b"\x45\x00\x00\x44\x00\x00\x00\x14\x40\x11\x66\x93\x0a\x00\x00\x01\x0a\x00\x00\x02",
            68,
            head(none, 20, 64, 17, A, B),
            0x6793,
        ),
        // a well known example of a header with DF, from 192.168.0.1 to 192.168.0.199
        (
            b"\x45\x00\x00\x73\x00\x00\x40\x00\x40\x11\xb8\x61\xc0\xa8\x00\x01\xc0\xa8\x00\xc7",
            115,
            head((true, false), 0, 64, 17, Ip4(0xc0a8_0001), Ip4(0xc0a8_00c7)),
            0xb961,
        ),
    ];
    for (octets, total, head, lowered) in rows {
        let mut out = [0xee; 128];
        let (header, _) = out.split_at_mut(20);
        if total < 20 || head.offset >= 8192 {
            return Err("no header".into());
        }
        write_header(header, &head, total);
        assert_eq!(rt; &header[..], &octets[..]);
        let view = Ip4View::read(&out).ok().ok_or("no datagram")?;
        assert!(rt; view.head() == head);
        assert_eq!(rt; view.header(), &octets[..]);
        assert_eq!(rt; view.body().len(), usize::from(total) - 20);
        let Ok(view) = Ip4View::read(&out) else {
            return Err("no datagram".into());
        };
        if view.head().ttl == 0 {
            return Err("no TTL".into());
        }
        decrement(&mut out);
        let view = Ip4View::read(&out).ok().ok_or("no datagram")?;
        assert_eq!(rt; view.head().ttl, head.ttl - 1);
        assert_eq!(rt; u16::from_be_bytes([out[10], out[11]]), lowered);
    }
    Ok(())
}

#[test]
fn refusals(rt: HostRuntime) -> Result<(), Fail> {
    // the header; how many octets are given; why they are refused
    let rows = [
        (
            b"\x45\x00\x00\x54\0\0\0\0\x40\x01\x66\xa7\x0a\0\0\x01\x0a\0\0\x02\0\0\0\0",
            84,
            None,
        ),
        (
            b"\x45\x00\x00\x54\0\0\0\0\x40\x01\x66\xa7\x0a\0\0\x01\x0a\0\0\x02\0\0\0\0",
            128,
            None,
        ),
        (
            b"\x45\x00\x00\x54\0\0\0\0\x40\x01\x66\xa7\x0a\0\0\x01\x0a\0\0\x02\0\0\0\0",
            0,
            Some(IpBad::Short),
        ),
        (
            b"\x45\x00\x00\x54\0\0\0\0\x40\x01\x66\xa7\x0a\0\0\x01\x0a\0\0\x02\0\0\0\0",
            19,
            Some(IpBad::Short),
        ),
        (
            b"\x35\x00\x00\x54\0\0\0\0\x40\x01\x66\xa7\x0a\0\0\x01\x0a\0\0\x02\0\0\0\0",
            84,
            Some(IpBad::Version),
        ),
        (
            b"\x55\x00\x00\x54\0\0\0\0\x40\x01\x66\xa7\x0a\0\0\x01\x0a\0\0\x02\0\0\0\0",
            20,
            Some(IpBad::Version),
        ),
        (
            b"\x44\x00\x00\x54\0\0\0\0\x40\x01\x66\xa7\x0a\0\0\x01\x0a\0\0\x02\0\0\0\0",
            84,
            Some(IpBad::HeaderLen),
        ),
        // with four octets of options
        (
            b"\x46\x00\x00\x18\0\0\0\0\x40\x01\x65\xe3\x0a\0\0\x01\x0a\0\0\x02\0\0\0\0",
            23,
            Some(IpBad::HeaderLen),
        ),
        (
            b"\x46\x00\x00\x18\0\0\0\0\x40\x01\x65\xe3\x0a\0\0\x01\x0a\0\0\x02\0\0\0\0",
            24,
            None,
        ),
        (
            b"\x45\x00\x00\x54\0\0\0\0\x40\x01\x66\xa8\x0a\0\0\x01\x0a\0\0\x02\0\0\0\0",
            84,
            Some(IpBad::Checksum),
        ),
        // the reserved flag
        (
            b"\x45\x00\x00\x54\0\0\x80\0\x40\x01\xe6\xa6\x0a\0\0\x01\x0a\0\0\x02\0\0\0\0",
            84,
            None,
        ),
        (
            b"\x45\x00\x00\x13\0\0\0\0\x40\x01\x66\xe8\x0a\0\0\x01\x0a\0\0\x02\0\0\0\0",
            84,
            Some(IpBad::TotalLen),
        ),
        (
            b"\x45\x00\x00\x14\0\0\0\0\x40\x01\x66\xe7\x0a\0\0\x01\x0a\0\0\x02\0\0\0\0",
            20,
            None,
        ),
        (
            b"\x45\x00\x00\x54\0\0\0\0\x40\x01\x66\xa7\x0a\0\0\x01\x0a\0\0\x02\0\0\0\0",
            83,
            Some(IpBad::TotalLen),
        ),
        (
            b"\x45\x00\x00\x55\0\0\0\0\x40\x01\x66\xa6\x0a\0\0\x01\x0a\0\0\x02\0\0\0\0",
            84,
            Some(IpBad::TotalLen),
        ),
    ];
    for (header, given, want) in rows {
        let mut octets = [0; 128];
        let (front, _) = octets.split_at_mut(24);
        front.copy_from_slice(header);
        let got = Ip4View::read(octets.get(..given).ok_or("too many")?);
        assert!(rt; got.err() == want);
    }
    Ok(())
}
