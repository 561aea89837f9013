use std::test::Fail;
use vn_link::{ArpBad, ArpPacket, EthView, law_of_headers, law_of_refusal, write_eth};
use vn_types::{Ip4, Mac};

// The first frame of a ping from 10.0.0.1 to 10.0.0.2: an ARP request.
const FRAME: [u8; 42] = [
    0xff, 0xff, 0xff, 0xff, 0xff, 0xff, 0x02, 0x00, 0x00, 0x00, 0x00, 0x0a, 0x08, 0x06, //
    0x00, 0x01, 0x08, 0x00, 0x06, 0x04, 0x00, 0x01, //
    0x02, 0x00, 0x00, 0x00, 0x00, 0x0a, 0x0a, 0x00, 0x00, 0x01, //
    0x00, 0x00, 0x00, 0x00, 0x00, 0x00, 0x0a, 0x00, 0x00, 0x02,
];

const BROADCAST: Mac = Mac([0xff; 6]);

const SENDER: Mac = Mac([0x02, 0x00, 0x00, 0x00, 0x00, 0x0a]);

const REQUEST: ArpPacket = ArpPacket {
    op: 1,
    sha: SENDER,
    spa: Ip4(0x0a00_0001),
    tha: Mac([0; 6]),
    tpa: Ip4(0x0a00_0002),
};

#[test]
fn request_is_read_and_written(rt: HostRuntime) -> Result<(), Fail> {
    let frame = EthView::read(&FRAME).ok().ok_or("a frame")?;
    assert!(rt; frame.dst() == BROADCAST);
    assert!(rt; frame.src() == SENDER);
    assert_eq!(rt; frame.kind(), 0x0806);
    assert!(rt; ArpPacket::read(frame.payload()) == Ok(REQUEST));
    let mut header = [0; 14];
    write_eth(&mut header, BROADCAST, SENDER, 0x0806);
    assert_eq!(rt; header.as_slice(), &FRAME[..14]);
    let mut packet = [0; 28];
    REQUEST.write(&mut packet);
    assert_eq!(rt; packet.as_slice(), &FRAME[14..]);
    Ok(())
}

#[test]
fn refusals(rt: HostRuntime) {
    law_of_headers();
    law_of_refusal();
    let rows = [
        // octets of the packet, a place in it, what stands there instead, another place, the refusal
        (28, 20, 0xff, 20, None),
        (28, 7, 2, 20, None),
        (27, 20, 0, 20, Some(ArpBad::Short)),
        (0, 20, 0, 20, Some(ArpBad::Short)),
        (27, 0, 1, 7, Some(ArpBad::Short)),
        (28, 0, 1, 20, Some(ArpBad::Hrd)),
        (28, 1, 2, 20, Some(ArpBad::Hrd)),
        (28, 1, 6, 3, Some(ArpBad::Hrd)),
        (28, 2, 9, 20, Some(ArpBad::Pro)),
        (28, 3, 6, 4, Some(ArpBad::Pro)),
        (28, 4, 5, 20, Some(ArpBad::Hln)),
        (28, 4, 7, 5, Some(ArpBad::Hln)),
        (28, 5, 3, 20, Some(ArpBad::Pln)),
        (28, 5, 6, 7, Some(ArpBad::Pln)),
        (28, 7, 0, 20, Some(ArpBad::Op)),
        (28, 7, 3, 20, Some(ArpBad::Op)),
        (28, 6, 1, 20, Some(ArpBad::Op)),
    ];
    for (length, place, value, other, refusal) in rows {
        let mut packet = [0; 28];
        packet.copy_from_slice(&FRAME[14..]);
        for at in [place, other] {
            if let Some(octet) = packet.get_mut(at) {
                *octet = value;
            }
        }
        let octets = packet.get(..length).unwrap_or(&[]);
        let read = ArpPacket::read(octets).err();
        assert!(rt;
            read == refusal,
            "{length} octets, {value} at {place} and {other}"
        );
    }
    assert!(rt; EthView::read(&FRAME[..13]).is_err());
    assert!(rt; EthView::read(&FRAME[..14]).is_ok());
}
