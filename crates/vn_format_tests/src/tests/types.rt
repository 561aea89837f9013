use std::alloc::Global;
use std::cmp::Ordering;
use vn_types::{
    Errno, Mac, Name, NoMemory, Path, SockName, cut, join, put, put_number, read_half, read_ifname,
    read_ip4, read_mac, read_number, read_path, read_prefix, write_half, write_ifname, write_ip4,
    write_mac, write_path, write_prefix,
};

// Each kind of word, a text, and what it is written as again: `-`, where it is refused. The addresses are the first
// and the last of each class of RFC 791, section 3.2.
const WORDS: &str = "address 0.0.0.0 0
address 127.255.255.255 2147483647
address 128.0.0.0 2147483648
address 191.255.255.255 3221225471
address 192.0.0.0 3221225472
address 255.255.255.255 4294967295
address 256.0.0.1 -
address 10.0.0.256 -
address 10.0.0 -
address 10.0.0.1.1 -
address 10..0.1 -
address 10.0.0.01 -
number 18446744073709551615 18446744073709551615
number 18446744073709551616 -
number +1 -
octets 02:00:00:12:d6:0A 2.0.0.18.214.10.
ip 10.0.0.2 10.0.0.2
prefix 10.0.0.1/24 10.0.0.1/24
prefix 0.0.0.0/0 0.0.0.0/0
prefix 255.255.255.255/32 255.255.255.255/32
prefix 10.0.0.1/33 -
prefix 10.0.0.1/08 -
prefix 10.0.0.1/ -
prefix 10.0.0.1 -
mac 02:00:FF:aB:00:0a 02:00:ff:ab:00:0a
mac 02:00:00:00:00 -
mac 02:00:00:00:00:0a:0b -
mac 2:0:0:0:0:a -
mac 02:00:00:00:00:0g -
ifname lo0 lo0
ifname epair0a epair0a
ifname epair4294967295b epair4294967295b
ifname epair4294967296a -
ifname epair00a -
ifname epaira -
ifname epair0 -
ifname epair0c -
ifname lo1 -
path host host
path a a
path a-1.b_2 a-1.b_2
path abcdefghijklmnop abcdefghijklmnop
path abcdefghijklmnopq -
path a.b.c.d.e.f.g.h a.b.c.d.e.f.g.h
path a.b.c.d.e.f.g.h.i -
path a.host -
path a..b -
path a. -
path 1a -
path A -
path  -
half host/0a host/0a
half r.n1/4294967295b r.n1/4294967295b
half r/4294967296b -
half r/0 -
half r/0a/0b -
half /0a -
half r0a -
name net.inet.ip.ttl net.inet.ip.ttl
name a_1 a_1
name a-1 -
name .a -
sock s s
sock abcdefghijklmn15 abcdefghijklmn15
sock abcdefghijklmno16 -
sock 1s -
sock s_ -
sock  -
labels host 
labels a-1.b_2 a-1/b_2/
order host/a < joined
order a/host > under joined
order a.b/a > under joined
order ab/a > joined
order a-b/a.b < joined
order a.b/a.b = under joined";

// Words as they are read and written again, and the numbers of FreeBSD's errno(2).
#[test]
fn texts(rt: HostRuntime) {
    for line in WORDS.lines() {
        assert!(rt; is_right(rt.alloc(), line), "{line}");
    }
    let errnos: [(Errno, u8, &str); 19] = [
        (Errno::Perm, 1, "EPERM"),
        (Errno::NoEnt, 2, "ENOENT"),
        (Errno::Srch, 3, "ESRCH"),
        (Errno::NxIo, 6, "ENXIO"),
        (Errno::BadF, 9, "EBADF"),
        (Errno::Exist, 17, "EEXIST"),
        (Errno::Inval, 22, "EINVAL"),
        (Errno::Again, 35, "EAGAIN"),
        (Errno::DestAddrReq, 39, "EDESTADDRREQ"),
        (Errno::MsgSize, 40, "EMSGSIZE"),
        (Errno::AddrInUse, 48, "EADDRINUSE"),
        (Errno::AddrNotAvail, 49, "EADDRNOTAVAIL"),
        (Errno::NetDown, 50, "ENETDOWN"),
        (Errno::NetUnreach, 51, "ENETUNREACH"),
        (Errno::NoBufs, 55, "ENOBUFS"),
        (Errno::IsConn, 56, "EISCONN"),
        (Errno::ConnRefused, 61, "ECONNREFUSED"),
        (Errno::HostDown, 64, "EHOSTDOWN"),
        (Errno::HostUnreach, 65, "EHOSTUNREACH"),
    ];
    for (errno, number, name) in errnos {
        assert_eq!(rt; errno.number(), number);
        assert_eq!(rt; errno.name(), name);
    }
}

fn is_right(alloc: Global, line: &str) -> bool {
    let Some((kind, rest)) = line.split_once(' ') else {
        return false;
    };
    let Some((text, want)) = rest.split_once(' ') else {
        return false;
    };
    let want = if want == "-" { "" } else { want };
    let mut out = Vec::new(alloc);
    again(alloc, kind, text.as_bytes(), &mut out).is_ok() && out.as_slice() == want.as_bytes()
}

// Writes what a text reads as, where it reads.
fn again(alloc: Global, kind: &str, text: &[u8], out: &mut Vec<u8>) -> Result<(), NoMemory> {
    match kind {
        "address" => match read_ip4(text) {
            Some(ip) => put_number(u64::from(ip.0), out),
            None => Ok(()),
        },
        "number" => match read_number(text) {
            Some(number) => put_number(number, out),
            None => Ok(()),
        },
        "ip" => match read_ip4(text) {
            Some(ip) => write_ip4(ip, out),
            None => Ok(()),
        },
        "prefix" => match read_prefix(text) {
            Some(prefix) => write_prefix(prefix, out),
            None => Ok(()),
        },
        "octets" => match read_mac(text) {
            Some(mac) => put_octets(mac, out),
            None => Ok(()),
        },
        "mac" => match read_mac(text) {
            Some(mac) => write_mac(mac, out),
            None => Ok(()),
        },
        "ifname" => match read_ifname(text) {
            Some(name) => write_ifname(name, out),
            None => Ok(()),
        },
        _ => name_again(alloc, kind, text, out),
    }
}

fn name_again(alloc: Global, kind: &str, text: &[u8], out: &mut Vec<u8>) -> Result<(), NoMemory> {
    match kind {
        "path" => match read_path(alloc, text)? {
            Some(path) => write_path(&path, out),
            None => Ok(()),
        },
        "labels" => match read_path(alloc, text)? {
            Some(path) => put_labels(&path, out),
            None => Ok(()),
        },
        "order" => put_order(alloc, text, out),
        "half" => match read_half(alloc, text)? {
            Some(half) => write_half(&half, out),
            None => Ok(()),
        },
        "name" => match Name::read(alloc, text)? {
            Some(name) => put(name.text(), out),
            None => Ok(()),
        },
        "sock" => match SockName::read(alloc, text)? {
            Some(name) => put(name.text(), out),
            None => Ok(()),
        },
        _ => Err(NoMemory),
    }
}

fn put_octets(mac: Mac, out: &mut Vec<u8>) -> Result<(), NoMemory> {
    for octet in mac.0 {
        put_number(u64::from(octet), out)?;
        put(b".", out)?;
    }
    Ok(())
}

fn put_labels(path: &Path, out: &mut Vec<u8>) -> Result<(), NoMemory> {
    let labels = path.labels()?;
    for label in labels.as_slice() {
        put(label.text(), out)?;
        put(b"/", out)?;
    }
    Ok(())
}

// How two paths compare: host is first, and `-` is below `.`, as in the order of their texts.
fn put_order(alloc: Global, text: &[u8], out: &mut Vec<u8>) -> Result<(), NoMemory> {
    let Some((first, second)) = cut(text, b'/') else {
        return Ok(());
    };
    let (Some(first), Some(second)) = (read_path(alloc, first)?, read_path(alloc, second)?) else {
        return Ok(());
    };
    let order: &[u8] = match first.cmp(&second) {
        Ordering::Less => b"<",
        Ordering::Equal => b"=",
        Ordering::Greater => b">",
    };
    put(order, out)?;
    if first.is_under(&second) {
        put(b" under", out)?;
    }
    if is_joined(alloc, &first, &second)? {
        put(b" joined", out)?;
    }
    Ok(())
}

// Whether two short paths in a row are as deep as both, and a copy of them is the same.
fn is_joined(alloc: Global, first: &Path, second: &Path) -> Result<bool, NoMemory> {
    let depth = first.depth() + second.depth();
    if depth > 8 {
        return Ok(false);
    }
    let both = join(alloc, second, first)?;
    let copy = both.copy()?;
    Ok(both.depth() == depth && both.is_under(second) && copy == both)
}
