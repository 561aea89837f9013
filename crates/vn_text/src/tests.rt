use super::*;
use std::test::Fail;
use vn_cells::{Command, Entry, Event, History, Outcome, Report, SectionText, What};
use vn_types::{Boxed, Errno, List, Name, Path, read_path};

fn path(rt: &HostRuntime, text: &str) -> Result<Path, Fail> {
    let path = read_path(rt.alloc(), text.as_bytes())
        .ok()
        .ok_or("no memory")?;
    Ok(path.ok_or("no path")?)
}

fn creation(rt: &HostRuntime, children_max: u32) -> Result<Command, Fail> {
    let path = path(rt, "a")?;
    Ok(Command::JailCreate { path, children_max })
}

fn name(rt: &HostRuntime) -> Result<Name, Fail> {
    let name = Name::read(rt.alloc(), b"vnet_data")
        .ok()
        .ok_or("no memory")?;
    Ok(name.ok_or("no name")?)
}

fn section(rt: &HostRuntime, path: Path, lines: Vec<What>) -> Result<SectionText, Fail> {
    let mut entries = List::new(rt.alloc());
    for what in lines {
        entries
            .push(Entry { clock: 0, what })
            .ok()
            .ok_or("no memory")?;
    }
    Ok(SectionText { path, entries })
}

/// Lane 1 makes a jail at host, and tries it again.
fn report(rt: &HostRuntime) -> Result<Report, Fail> {
    let alloc = rt.alloc();
    let mut history = History::new(alloc);
    history
        .push(Event::Cmd {
            lane: 1,
            path: path(rt, "host")?,
            command: creation(rt, 0)?,
        })
        .ok()
        .ok_or("no memory")?;
    let mut host = Vec::new(alloc);
    host.push(What::Init(name(rt)?))?;
    for outcome in [Outcome::Done, Outcome::Refused(Errno::Exist)] {
        host.push(What::Cmd {
            lane: 1,
            command: Boxed::new(alloc, creation(rt, 0)?).ok().ok_or("no memory")?,
            outcome,
        })?;
    }
    let mut jail = Vec::new(alloc);
    jail.push(What::Init(name(rt)?))?;
    let mut sections = List::new(alloc);
    sections
        .push(section(rt, path(rt, "host")?, host)?)
        .ok()
        .ok_or("no memory")?;
    sections
        .push(section(rt, path(rt, "a")?, jail)?)
        .ok()
        .ok_or("no memory")?;
    Ok(Report {
        history,
        sections,
        opened: 0,
        kept: 0,
    })
}

const TRANSCRIPTS: &str = "== host
0 - init vnet_data
0 1 jail -c name=a vnet persist = ok
0 1 jail -c name=a vnet persist = EEXIST 17
== a
0 - init vnet_data
== pool open 0 kept 0
";

const HISTORY: &str = "== history 1
cmd 1 host jail -c name=a vnet persist
== end
";

#[test]
fn a_report_is_its_transcripts_and_its_history(rt: HostRuntime) -> Result<(), Fail> {
    let report = report(&rt)?;
    let mut out = Vec::new(rt.alloc());
    write_sections(&report, None, &mut out)
        .ok()
        .ok_or("no memory")?;
    assert_eq!(rt; out.as_slice(), TRANSCRIPTS.as_bytes());
    write_history(&report.history, &mut out)
        .ok()
        .ok_or("no memory")?;
    let mut whole = Vec::new(rt.alloc());
    write_report(&report, &mut whole).ok().ok_or("no memory")?;
    assert_eq!(rt; whole.as_slice(), out.as_slice());
    assert_eq!(rt;
        whole.strip_prefix(TRANSCRIPTS.as_bytes()),
        Some(HISTORY.as_bytes())
    );
    let rows = [
        (0, "jail -c name=a vnet persist"),
        (1, "jail -c name=a vnet persist children.max=1"),
        (9_999, "jail -c name=a vnet persist children.max=9999"),
    ];
    // A limit of 0 is not written.
    for (children_max, want) in rows {
        let mut out = Vec::new(rt.alloc());
        write_command(&creation(&rt, children_max)?, &mut out)
            .ok()
            .ok_or("no memory")?;
        assert_eq!(rt; out.as_slice(), want.as_bytes());
    }
    Ok(())
}
