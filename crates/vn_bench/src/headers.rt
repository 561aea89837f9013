use vn_cksum::{sum16, sum16_parts};
use vn_icmpfmt::{IcmpView, read_quote, write_echo, write_error};
use vn_ip4fmt::{Ip4Head, Ip4View, write_header};
use vn_link::{ArpPacket, EthView, write_eth};
use vn_types::{Ip4, Mac};
use vn_udpfmt::{UdpView, write_udp};

const SOURCE: Ip4 = Ip4(0x0a00_0001);

const DESTINATION: Ip4 = Ip4(0x0a00_0002);

/// The sum of what is written in each round and read from it: a request, an echo, an error
/// about it, and a UDP datagram.
pub fn folded_headers(rounds: u64) -> u16 {
    let mut folded: u16 = 0;
    for round in 0..rounds {
        let number = (round % 65536) as u16;
        for sum in [request_sum(number), echo_sum(number), udp_sum(number)] {
            let sum = sum.unwrap_or(0);
            folded = sum16_parts(&folded.to_be_bytes(), &sum.to_be_bytes());
        }
    }
    folded
}

// An ARP request in its frame: the sum of the frame, if its sender is read as it was written.
fn request_sum(number: u16) -> Option<u16> {
    let [high, low] = number.to_be_bytes();
    let sender = Mac([2, 0, 0, high, low, 10]);
    let request = ArpPacket {
        op: 1,
        sha: sender,
        spa: SOURCE,
        tha: Mac([0; 6]),
        tpa: DESTINATION,
    };
    let mut frame = [0; 42];
    let (header, packet) = frame.split_at_mut(14);
    write_eth(header, Mac([0xff; 6]), sender, 0x0806);
    request.write(packet);
    let view = EthView::read(&frame).ok()?;
    let read = ArpPacket::read(view.payload()).ok()?;
    (view.src() == read.sha && read == request).then_some(sum16(&frame))
}

// An echo of 56 zeros in its datagram, and an error that quotes it: the sum of the first octets that are
// quoted.
fn echo_sum(number: u16) -> Option<u16> {
    let head = Ip4Head {
        tos: 0,
        id: number,
        df: false,
        mf: false,
        offset: 0,
        ttl: 1,
        proto: 1,
        src: SOURCE,
        dst: DESTINATION,
    };
    let mut datagram = [0; 84];
    let (header, body) = datagram.split_at_mut(20);
    write_header(header, &head, 84);
    write_echo(body, 8, number, 1, &[0; 56]);
    let view = Ip4View::read(&datagram).ok()?;
    let echo = IcmpView::read(view.body()).ok()?;
    let mut error = [0; 36];
    write_error(&mut error, 11, 0, &datagram[..28]);
    let quote = read_quote(IcmpView::read(&error).ok()?.rest())?;
    (view.head().id == echo.id() && quote.src == SOURCE).then_some(sum16(&quote.first[..4]))
}

// Two octets of data in a UDP datagram from a port of its own: the sum of its octets.
fn udp_sum(number: u16) -> Option<u16> {
    let mut body = [0; 10];
    write_udp(&mut body, SOURCE, DESTINATION, number, 7, b"hi", true);
    let view = UdpView::read(&body, SOURCE, DESTINATION).ok()?;
    (view.sport() == number && view.dport() == 7).then_some(sum16(&body))
}
