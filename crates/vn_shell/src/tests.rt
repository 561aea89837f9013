use super::*;
use std::alloc::Global;
use std::test::Fail;
use vn_cells::{Command, Line, Part, Script};
use vn_types::{Path, write_path};

fn put_path(path: &Path, out: &mut Vec<u8>) -> Result<(), Fail> {
    write_path(path, out).ok().ok_or("no memory")?;
    out.extend_from_slice(b" ")?;
    Ok(())
}

// Each phase, and each of its lines as its lane, its path, and the path and the limit that it names.
fn put_script(script: &Script, out: &mut Vec<u8>) -> Result<(), Fail> {
    for part in script.parts.as_slice() {
        let Part::Phase(lines) = part else {
            return Err("no phase".into());
        };
        out.extend_from_slice(b"phase ")?;
        for lane_line in lines.as_slice() {
            let Line::Cmd(Command::JailCreate { path, children_max }) = &lane_line.line else {
                return Err("no jail".into());
            };
            out.extend_from_slice(&[lane_line.lane.wrapping_add(b'0'), b' '])?;
            put_path(&lane_line.path, out)?;
            put_path(path, out)?;
            out.extend_from_slice(if *children_max == 0 { b"- " } else { b"limit " })?;
        }
    }
    Ok(())
}

fn reason_text(reason: Reason) -> &'static str {
    match reason {
        Reason::Text => "text",
        Reason::Lane => "lane",
        Reason::Path => "path",
        Reason::Command => "command",
        Reason::Depth => "depth",
    }
}

// What is read, or the line that is refused and why.
fn reading(alloc: Global, text: &[u8]) -> Result<Vec<u8>, Fail> {
    let mut out = Vec::new(alloc);
    match read_script(alloc, text) {
        Ok(script) => put_script(&script, &mut out)?,
        Err(ScriptFault::NoMemory) => out.extend_from_slice(b"no memory")?,
        Err(ScriptFault::Script { line, reason }) => {
            let text = format!(in alloc; "{line} {}", reason_text(reason))?;
            out.extend_from_slice(text.as_bytes())?;
        }
    }
    Ok(out)
}

#[test]
fn scripts_are_read(rt: HostRuntime) -> Result<(), Fail> {
    let alloc = rt.alloc();
    let rows = [
        ("", ""),
        ("1 host jail -c name=a vnet persist", "phase 1 host a - "),
        ("1 a jail -c name=b vnet persist\n", "phase 1 a b - "),
        (
            "#\n  8  a.b jail  -c persist name=c.d vnet \n\n2 host jail -c vnet persist name=b",
            "phase 8 a.b c.d - 2 host b - ",
        ),
        ("# note\n  \n9 host jail -c name=a vnet persist", "3 lane"),
        ("01 host jail -c name=a vnet persist", "1 lane"),
        ("\nsettle\n1", "2 command"),
        ("1\n9", "1 path"),
        ("1 a..b jail -c name=a vnet persist", "1 path"),
        ("1 A jail -c name=a vnet persist", "1 path"),
        ("1 host jail -c name=a vnet persist now", "1 command"),
        ("1 host jail -c name=a vnet vnet", "1 command"),
        ("1 host jail -c name=a persist", "1 command"),
        ("1 host jail -c name=a name=b vnet persist", "1 command"),
        ("1 host netstat -s", "1 command"),
        (
            "1 host jail -c children.max=9999 name=a vnet persist",
            "phase 1 host a limit ",
        ),
        (
            "1 host jail -c name=a vnet persist children.max=10000",
            "1 command",
        ),
        ("1 host jail -c name=host vnet persist", "1 command"),
        (
            "1 host jail -c name=a.b.c.d.e.f.g.h.i vnet persist",
            "1 command",
        ),
        (
            "1 a.b.c.d jail -c name=a.b.c.d vnet persist",
            "phase 1 a.b.c.d a.b.c.d - ",
        ),
        ("1 a.b.c.d jail -c name=a.b.c.d.e vnet persist", "1 depth"),
        ("#\n# a\tb", "2 text"),
    ];
    for (text, want) in rows {
        let found = reading(alloc, text.as_bytes())?;
        assert_eq!(rt; found.as_slice(), want.as_bytes(), "{text}");
    }
    let mut comment = Vec::from_elem(alloc, b'#', 4096)?;
    assert_eq!(rt; reading(alloc, &comment)?.as_slice(), b"".as_slice());
    comment.push(b'#')?;
    assert_eq!(rt; reading(alloc, &comment)?.as_slice(), b"1 text".as_slice());
    Ok(())
}

// Nothing, or why the only line of a text is refused by the whole grammar.
fn refusal(alloc: Global, text: &str) -> Result<&'static str, Fail> {
    match read_whole_script(alloc, text.as_bytes()) {
        Ok(_) => Ok(""),
        Err(ScriptFault::NoMemory) => Ok("no memory"),
        Err(ScriptFault::Script { line: _, reason }) => Ok(reason_text(reason)),
    }
}

#[test]
fn lines_between_phases_are_read(rt: HostRuntime) -> Result<(), Fail> {
    let rows = [
        ("phase", ""),
        ("phase 1", "command"),
        ("settle", ""),
        ("settle now", "command"),
        ("sleep 86400000", ""),
        ("sleep 0", "command"),
    ];
    for (text, want) in rows {
        let found = refusal(rt.alloc(), text)?;
        assert_eq!(rt; found, want, "{text}");
    }
    Ok(())
}

#[test]
fn jails_and_interfaces_are_read(rt: HostRuntime) -> Result<(), Fail> {
    let rows = [
        ("1 host jail -c children.max=9999 persist vnet name=a", ""),
        (
            "1 host jail -c children.max=10000 persist vnet name=a",
            "command",
        ),
        ("1 host jail -r a.b", ""),
        ("1 host jail -r host", "command"),
        ("1 a.b.c.d jail -r a.b.c.d.e", "depth"),
        ("1 host ifconfig epair create", ""),
        ("1 host ifconfig epair4294967295 create", ""),
        ("1 host ifconfig epair4294967296 create", "command"),
        ("1 host ifconfig epair0a destroy", ""),
        ("1 host ifconfig epair00a destroy", "command"),
        ("1 host ifconfig lo0 vnet a", ""),
        ("1 host ifconfig lo0 -vnet a b", "command"),
        ("1 host ifconfig lo0 inet 10.0.0.1/32 alias", ""),
        ("1 host ifconfig lo0 inet alias 10.0.0.1/32", "command"),
        ("1 host ifconfig lo0 inet 10.0.0.1 -alias", ""),
        ("1 host ifconfig lo0 inet 10.0.0.1/33", "command"),
        ("1 host ifconfig lo0 ether 02:aB:00:00:00:01", ""),
        ("1 host ifconfig lo0 ether 2:ab:00:00:00:01", "command"),
        ("1 host ifconfig lo0 up", ""),
        ("1 host ifconfig lo0 down now", "command"),
    ];
    for (text, want) in rows {
        let found = refusal(rt.alloc(), text)?;
        assert_eq!(rt; found, want, "{text}");
    }
    Ok(())
}

#[test]
fn routes_and_variables_are_read(rt: HostRuntime) -> Result<(), Fail> {
    let rows = [
        ("1 host route add -net 10.0.0.7/8 10.0.0.1", ""),
        ("1 host route add default", "command"),
        ("1 host route delete default", ""),
        ("1 host route delete -net", "command"),
        ("1 host arp -s 10.0.0.1 02:00:00:00:00:01", ""),
        ("1 host arp -d", "command"),
        ("1 host sysctl net.inet.ip.ttl=18446744073709551615", ""),
        ("1 host sysctl net.inet.ip.ttl=", "command"),
        ("1 host netstat -s", ""),
        ("1 host netstat", "command"),
        ("1 host ping -c 1 -m 255 10.0.0.1", ""),
        ("1 host ping -m 0 10.0.0.1", "command"),
    ];
    for (text, want) in rows {
        let found = refusal(rt.alloc(), text)?;
        assert_eq!(rt; found, want, "{text}");
    }
    Ok(())
}

#[test]
fn sockets_are_read(rt: HostRuntime) -> Result<(), Fail> {
    let rows = [
        ("1 host udp open a", ""),
        ("1 host udp open A", "command"),
        ("1 host udp bind a * 65535", ""),
        ("1 host udp bind a * 65536", "command"),
        ("1 host udp connect a 10.0.0.1 0", ""),
        ("1 host udp connect a *", "command"),
        ("1 host udp send a 0aF0 10.0.0.1 7", ""),
        ("1 host udp send a 0", "command"),
        ("1 host udp send a zero:20000", ""),
        ("1 host udp send a zero:20001", "command"),
        ("1 host udp ttl a 1", ""),
        ("1 host udp ttl a 256", "command"),
        ("1 host udp recv a", ""),
        ("1 host udp close", "command"),
    ];
    for (text, want) in rows {
        let found = refusal(rt.alloc(), text)?;
        assert_eq!(rt; found, want, "{text}");
    }
    Ok(())
}

#[test]
fn listings_and_readers_are_read(rt: HostRuntime) -> Result<(), Fail> {
    let rows = [
        ("1 host ifconfig -a", ""),
        ("1 host netstat -rn", ""),
        ("1 host arp -an", ""),
        ("1 host arp -a", "command"),
        ("1 host open route", ""),
        ("1 host open table", "command"),
        ("1 host next", ""),
        ("1 host close", ""),
        ("1 host watch", ""),
        ("1 host watch if", "command"),
    ];
    for (text, want) in rows {
        let found = refusal(rt.alloc(), text)?;
        assert_eq!(rt; found, want, "{text}");
    }
    Ok(())
}
