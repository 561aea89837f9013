mod rows;

use super::*;
use crate::edges::{Reader, Writer};
use std::alloc::Global;
use std::io::ErrorKind;
use std::process::ExitCode;
use std::test::Fail;

const CONSTRUCTORS: &str = "0 - init vnet_data
0 - init vnet_if
0 - init vnet_cloner
0 - init loif
0 - init inaddr
0 - init route
0 - init arp
0 - init ip
0 - init icmp
0 - init udp
0 - init vnet_if_return
";

const TWICE: &str = "1 host jail -c name=a vnet persist
1 host jail -c name=a vnet persist
";

const TWICE_TOLD: [&str; 7] = [
    "== host\n",
    CONSTRUCTORS,
    "0 1 jail -c name=a vnet persist = ok\n0 1 jail -c name=a vnet persist = EEXIST 17\n",
    "== a\n",
    CONSTRUCTORS,
    "== pool open 0 kept 0\n== history 1\n",
    "cmd 1 host jail -c name=a vnet persist\ncmd 1 host jail -c name=a vnet persist\n== end\n",
];

/// A line so short that 200,001 of them are within the limit of the input.
const UP: &str = "1 a ifconfig lo0 up\n";

const USAGE: &str = "usage: vnetsh run|threads|replay|project CELLS|gen N\n";

fn joined(alloc: Global, pieces: &[&str]) -> Result<Vec<u8>, Fail> {
    let mut text = Vec::new(alloc);
    for piece in pieces {
        text.extend_from_slice(piece.as_bytes())?;
    }
    Ok(text)
}

/// A call of the program with words behind its name.
fn call(
    words: &[&str],
    reader: &mut Reader<'_>,
    writer: &mut Writer,
    errors: &mut Writer,
) -> Result<ExitCode, Fail> {
    let alloc = *writer.octets.allocator();
    let mut all = Vec::new(alloc);
    all.push(String::from_str(alloc, "vnetsh")?)?;
    for word in words {
        all.push(String::from_str(alloc, *word)?)?;
    }
    Ok(program(
        alloc,
        Ok(all),
        &mut ReadSource::new(reader),
        &mut WriteSink::new(writer),
        &mut WriteSink::new(errors),
    ))
}

/// The exit status of a call that nothing fails, its output and its status line.
fn calm(alloc: Global, words: &[&str], text: &str) -> Result<(ExitCode, Vec<u8>, Vec<u8>), Fail> {
    let mut writer = Writer::new(alloc, 4096, 0);
    let mut errors = Writer::new(alloc, 4096, 0);
    let code = call(
        words,
        &mut Reader::new(text, 4096, 0),
        &mut writer,
        &mut errors,
    )?;
    let Writer { octets, .. } = writer;
    let Writer { octets: line, .. } = errors;
    Ok((code, octets, line))
}

#[test]
fn what_is_refused_has_its_line(rt: HostRuntime) -> Result<(), Fail> {
    let alloc = rt.alloc();
    let rows: [(&[&str], &str, u8, &str); 9] = [
        (&[], TWICE, 1, USAGE),
        (&["run", "x"], TWICE, 1, USAGE),
        (&["--help"], TWICE, 1, USAGE),
        (&["threads"], TWICE, 1, USAGE),
        (&["run"], "1 host frob", 2, "script: line 1: command\n"),
        (&["run"], "9 host settle", 2, "script: line 1: lane\n"),
        (&["run"], "1 host.a jls", 2, "script: line 1: path\n"),
        (
            &["run"],
            "# a comment\n\n1 a jail -c name=b.c.d.e.f.g.h.i vnet persist",
            2,
            "script: line 3: depth\n",
        ),
        (&["run"], "#\n# \t\n", 2, "script: line 2: text\n"),
    ];
    for (words, script, status, told) in rows {
        let (code, output, line) = calm(alloc, words, script)?;
        assert_eq!(rt; code, ExitCode::from(status), "{told}");
        assert_eq!(rt; line.as_slice(), told.as_bytes());
        assert!(rt; output.is_empty(), "{told}");
    }
    Ok(())
}

#[test]
fn words_may_be_no_text(rt: HostRuntime) -> Result<(), Fail> {
    let alloc = rt.alloc();
    let rows = [
        (ErrorKind::InvalidData, 1, USAGE),
        (ErrorKind::OutOfMemory, 5, "out of memory\n"),
    ];
    for (kind, status, told) in rows {
        let mut reader = Reader::new(TWICE, 4096, 0);
        let mut writer = Writer::new(alloc, 4096, 0);
        let mut errors = Writer::new(alloc, 4096, 0);
        let code = program(
            alloc,
            Err(kind.into()),
            &mut ReadSource::new(&mut reader),
            &mut WriteSink::new(&mut writer),
            &mut WriteSink::new(&mut errors),
        );
        assert_eq!(rt; code, ExitCode::from(status));
        assert_eq!(rt; reader.calls, 0);
        assert_eq!(rt; writer.calls, 0);
        assert_eq!(rt; errors.octets.as_slice(), told.as_bytes());
    }
    Ok(())
}

#[test]
fn a_run_has_limits(rt: HostRuntime) -> Result<(), Fail> {
    let alloc = rt.alloc();
    let rows = [
        ("\n", 4_194_304usize, 0, ""),
        ("\n", 4_194_305, 6, "input too long\n"),
        (UP, 200_000, 0, ""),
        (UP, 200_001, 7, "too many events\n"),
    ];
    for (text, times, status, told) in rows {
        let script = text.repeat(alloc, times)?;
        let (code, output, line) = calm(alloc, &["run"], &script)?;
        assert_eq!(rt; code, ExitCode::from(status), "{times}");
        assert_eq!(rt; output.is_empty(), status != 0, "{times}");
        assert_eq!(rt; line.as_slice(), told.as_bytes(), "{times}");
    }
    Ok(())
}

/// The call that fails is the last one.
#[test]
fn a_failed_read_ends_the_run(rt: HostRuntime) -> Result<(), Fail> {
    let alloc = rt.alloc();
    for piece in [1usize, 7, 4096] {
        // the last read finds the end
        let reads = TWICE.len().div_ceil(piece) as u64 + 1;
        for failing in 1..reads + 1 {
            let mut reader = Reader::new(TWICE, piece, failing);
            let mut writer = Writer::new(alloc, 4096, 0);
            let mut errors = Writer::new(alloc, 4096, 0);
            let code = call(&["run"], &mut reader, &mut writer, &mut errors)?;
            assert_eq!(rt; code, ExitCode::from(3));
            assert_eq!(rt; reader.calls, failing);
            assert_eq!(rt; writer.calls, 0);
            assert_eq!(rt; errors.octets.as_slice(), b"read fault\n".as_slice());
        }
    }
    Ok(())
}

#[test]
fn a_failed_write_ends_the_run(rt: HostRuntime) -> Result<(), Fail> {
    let alloc = rt.alloc();
    let whole = joined(alloc, &TWICE_TOLD)?;
    for piece in [1usize, 7, 4096] {
        for before in 0..whole.len().div_ceil(piece) {
            let mut reader = Reader::new(TWICE, 4096, 0);
            let mut writer = Writer::new(alloc, piece, before as u64 + 1);
            let mut errors = Writer::new(alloc, 4096, 0);
            let code = call(&["run"], &mut reader, &mut writer, &mut errors)?;
            assert_eq!(rt; code, ExitCode::from(4));
            assert_eq!(rt; writer.calls, before as u64 + 1);
            assert_eq!(rt; writer.octets.len(), before.saturating_mul(piece));
            assert!(rt; whole.starts_with(&writer.octets));
            assert_eq!(rt; errors.octets.as_slice(), b"write fault\n".as_slice());
        }
    }
    Ok(())
}

/// Neither the exit status nor the output changes, and there is no second try.
#[test]
fn a_status_line_may_be_lost(rt: HostRuntime) -> Result<(), Fail> {
    let alloc = rt.alloc();
    for failing in [1u64, 2] {
        let mut reader = Reader::new("1 host frob", 4096, 0);
        let mut writer = Writer::new(alloc, 4096, 0);
        let mut errors = Writer::new(alloc, 7, failing);
        let code = call(&["run"], &mut reader, &mut writer, &mut errors)?;
        assert_eq!(rt; code, ExitCode::from(2));
        assert_eq!(rt; writer.calls, 0);
        assert_eq!(rt; errors.calls, failing);
        assert_eq!(rt;
            errors.octets.as_slice(),
            &b"script:"[..errors.octets.len().min(7)]
        );
    }
    Ok(())
}
