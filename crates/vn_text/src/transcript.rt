ghost use Rattle.std.specs.Prelude.{◌≡◌, ◌++◌, ◌∷◌, codes, decimal, OnOk};
ghost use Rattle.std.specs.Io.{StartsWith};
ghost use Rattle.vn_types.specs.AddressWords.{ip4_text};
ghost use Rattle.vn_types.specs.Errors.{errno_name, errno_number};
ghost use Rattle.vn_cells.specs.declared.transcript.What.TheVariants as what;
ghost use Rattle.vn_cells.specs.texts.Text.{command_text, entry_line, lane_text, outcome_text, table_text, what_text};

use crate::command::put_command;
use crate::put::{put, put_number, put_with_ip4};
use vn_cells::{Command, Entry, Outcome, Table, What};
use vn_types::{Errno, Ip4, NoMemory};

/// Puts an entry's line at the end of the output.
pub(crate) fn put_entry(entry: &Entry, out: &mut Vec<u8>) -> Result<(), NoMemory>
    ensures put { OnOk result (out.new.items ≡ out.old.items ++ entry_line entry.now) }
    ensures front { StartsWith out.new.items out.old.items }
{
    put_number(entry.clock, out)?;
    put(b" ", out)?;
    put_what(&entry.what, out)?;
    put(b"\n", out)
}

#[tactic(auto, unfolding(vn_cells::specs::texts::Text::what_text))]
fn put_what(what: &What, out: &mut Vec<u8>) -> Result<(), NoMemory>
    ensures put { OnOk result (out.new.items ≡ out.old.items ++ what_text what.now) }
    ensures front { StartsWith out.new.items out.old.items }
{
    match what {
        What::Cmd {
            lane,
            command,
            outcome,
        } => put_answered(*lane, command.get(), outcome, out),
        What::Open {
            lane,
            table,
            outcome,
        } => put_opened(*lane, *table, outcome, out),
        What::Next { lane, outcome } => put_reader_event(*lane, b" next", outcome, out),
        What::Close { lane, outcome } => put_reader_event(*lane, b" close", outcome, out),
        What::Init(name) => put_constructor(b"- init ", name.text(), out),
        What::Uninit(name) => put_constructor(b"- uninit ", name.text(), out),
        What::Reply {
            from,
            id,
            ttl,
            bytes,
        } => put_reply(*from, *id, *ttl, *bytes, out),
        What::Icmp {
            kind,
            code,
            from,
            id,
        } => put_icmp(*kind, *code, *from, *id, out),
        What::Timeout { ip, id } => put_ping(b"- timeout ", *ip, *id, out),
    }
}

/// A command that a lane ran, and its outcome.
fn put_answered(
    lane: u8,
    command: &Command,
    outcome: &Outcome,
    out: &mut Vec<u8>,
) -> Result<(), NoMemory>
    ensures put { OnOk result (out.new.items
        ≡ out.old.items ++ lane_text lane (command_text command.now) outcome.now) }
    ensures front { StartsWith out.new.items out.old.items }
{
    put_number(u64::from(lane), out)?;
    put(b" ", out)?;
    put_command(command, out)?;
    put_outcome(outcome, out)
}

fn put_opened(lane: u8, table: Table, outcome: &Outcome, out: &mut Vec<u8>) -> Result<(), NoMemory>
    ensures put { OnOk result (out.new.items
        ≡ out.old.items ++ lane_text lane (codes "open " ++ table_text table) outcome.now) }
    ensures front { StartsWith out.new.items out.old.items }
{
    put_number(u64::from(lane), out)?;
    put(b" open ", out)?;
    put(table_name(table), out)?;
    put_outcome(outcome, out)
}

/// A step of an open reader, with a space before it.
fn put_reader_event(
    lane: u8,
    step: &[u8],
    outcome: &Outcome,
    out: &mut Vec<u8>,
) -> Result<(), NoMemory>
    ensures put { OnOk result (out.new.items
        ≡ out.old.items ++ decimal lane ++ step.now ++ codes " = " ++ outcome_text outcome.now) }
    ensures front { StartsWith out.new.items out.old.items }
{
    put_number(u64::from(lane), out)?;
    put(step, out)?;
    put_outcome(outcome, out)
}

fn put_constructor(event: &[u8], name: &[u8], out: &mut Vec<u8>) -> Result<(), NoMemory>
    ensures put { OnOk result (out.new.items ≡ out.old.items ++ event.now ++ name.now) }
    ensures front { StartsWith out.new.items out.old.items }
{
    put(event, out)?;
    put(name, out)
}

fn put_reply(from: Ip4, id: u16, ttl: u8, bytes: u16, out: &mut Vec<u8>) -> Result<(), NoMemory>
    ensures put { OnOk result (out.new.items
        ≡ out.old.items ++ codes "- reply " ++ ip4_text from ++ codes " id " ++ decimal id
        ++ codes " ttl " ++ decimal ttl ++ codes " bytes " ++ decimal bytes) }
    ensures front { StartsWith out.new.items out.old.items }
{
    put_ping(b"- reply ", from, id, out)?;
    put(b" ttl ", out)?;
    put_number(u64::from(ttl), out)?;
    put(b" bytes ", out)?;
    put_number(u64::from(bytes), out)
}

/// An ICMP error about a ping.
#[tactic(auto, unfolding(vn_cells::specs::texts::Text::what_text))]
fn put_icmp(kind: u8, code: u8, from: Ip4, id: u16, out: &mut Vec<u8>) -> Result<(), NoMemory>
    ensures put { OnOk result (out.new.items
        ≡ out.old.items ++ what_text (what.Icmp kind code from id)) }
    ensures front { StartsWith out.new.items out.old.items }
{
    put(b"- icmp ", out)?;
    put_number(u64::from(kind), out)?;
    put(b"/", out)?;
    put_number(u64::from(code), out)?;
    put_ping(b" from ", from, id, out)
}

/// A text, and the ping that it is about: its address and the identifier of its echo request (RFC 792).
fn put_ping(text: &[u8], ip: Ip4, id: u16, out: &mut Vec<u8>) -> Result<(), NoMemory>
    ensures put { OnOk result (out.new.items
        ≡ out.old.items ++ text.now ++ ip4_text ip ++ codes " id " ++ decimal id) }
    ensures front { StartsWith out.new.items out.old.items }
{
    put_with_ip4(text, ip, out)?;
    put(b" id ", out)?;
    put_number(u64::from(id), out)
}

/// Puts ` = ` and an outcome at the end of the output.
#[tactic(auto, unfolding(vn_cells::specs::texts::Text::outcome_text))]
fn put_outcome(outcome: &Outcome, out: &mut Vec<u8>) -> Result<(), NoMemory>
    ensures put { OnOk result (out.new.items
        ≡ out.old.items ++ codes " = " ++ outcome_text outcome.now) }
    ensures front { StartsWith out.new.items out.old.items }
{
    put(b" = ", out)?;
    match outcome {
        Outcome::Done => put(b"ok", out),
        Outcome::Refused(errno) => put_errno(*errno, out),
        Outcome::Value(text) => put(text.as_slice(), out),
    }
}

/// An error's name and its number (errno(2)).
fn put_errno(errno: Errno, out: &mut Vec<u8>) -> Result<(), NoMemory>
    ensures put { OnOk result (out.new.items
        ≡ out.old.items ++ errno_name errno ++ 32 ∷ decimal (errno_number errno)) }
    ensures front { StartsWith out.new.items out.old.items }
{
    put(errno.name().as_bytes(), out)?;
    put(b" ", out)?;
    put_number(u64::from(errno.number()), out)
}

pub(crate) fn table_name(table: Table) -> &'static [u8]
    ensures { result.now ≡ table_text table }
{
    match table {
        Table::If => b"if",
        Table::Route => b"route",
        Table::Arp => b"arp",
    }
}
