ghost use Rattle.std.specs.Prelude.{◌≡◌, ◌++◌, ◌∷◌, codes, decimal, OnOk, OnErr};
ghost use Rattle.std.specs.Io.{StartsWith};
ghost use Rattle.std.specs.List.{flat_map};
ghost use Rattle.vn_types.specs.HalfWords.{half_text};
ghost use Rattle.vn_types.specs.Paths.{path_text};
ghost use Rattle.vn_cells.specs.texts.Text.{command_text, event_text, history_text, lane_event, line, table_text, then_word};

use crate::command::put_command;
use crate::put::{put, put_number};
use crate::transcript::table_name;
use vn_cells::{Command, Event, History, Table};
use vn_types::{Half, NoMemory, Path, restore, write_half, write_path};

/// Puts a history at the end of the output: a first line, a line for each event, and a last line.
pub fn write_history(history: &History, out: &mut Vec<u8>) -> Result<(), NoMemory>
    ensures written { OnOk result (out.new.items ≡ out.old.items ++ history_text history.now) }
    ensures kept { OnErr result (out.new.items ≡ out.old.items) }
{
    let start = out.len();
    restore(put_history(history.events(), out), start, out)
}

#[tactic(auto, using(crate::proofs::Putting::history_put))]
pub(crate) fn put_history(events: &[Event], out: &mut Vec<u8>) -> Result<(), NoMemory>
    ensures put { OnOk result (out.new.items ≡ out.old.items ++ history_text events.now) }
    ensures front { StartsWith out.new.items out.old.items }
{
    put(b"== history 1\n", out)?;
    put_events(events, out)?;
    put(b"== end\n", out)
}

/// The lines of events, in their order.
fn put_events(events: &[Event], out: &mut Vec<u8>) -> Result<(), NoMemory>
    ensures put { OnOk result (out.new.items
        ≡ out.old.items ++ flat_map (λ e. line (event_text e)) events.now) }
    ensures front { StartsWith out.new.items out.old.items }
{
    for event in events {
        put_event(event, out)?;
        put(b"\n", out)?;
    }
    Ok(())
}

/// What happened, without a line end.
#[tactic(auto, unfolding(vn_cells::specs::texts::Text::event_text))]
fn put_event(event: &Event, out: &mut Vec<u8>) -> Result<(), NoMemory>
    ensures put { OnOk result (out.new.items ≡ out.old.items ++ event_text event.now) }
    ensures front { StartsWith out.new.items out.old.items }
{
    match event {
        Event::Tick(milliseconds) => put_tick(*milliseconds, out),
        Event::Cmd {
            lane,
            path,
            command,
        } => put_run(*lane, path, command, out),
        Event::Deliver(half) => put_delivery(half, out),
        Event::LoopDeliver(path) => put_at(b"loop ", path, out),
        Event::Fire(path) => put_at(b"fire ", path, out),
        Event::Open { lane, path, table } => put_open(*lane, path, *table, out),
        Event::Next { lane, path } => put_lane_event(b"next ", *lane, path, out),
        Event::Close { lane, path } => put_lane_event(b"close ", *lane, path, out),
    }
}

/// The clock moves on.
fn put_tick(milliseconds: u64, out: &mut Vec<u8>) -> Result<(), NoMemory>
    ensures put { OnOk result (out.new.items
        ≡ out.old.items ++ codes "tick " ++ decimal milliseconds) }
    ensures front { StartsWith out.new.items out.old.items }
{
    put(b"tick ", out)?;
    put_number(milliseconds, out)
}

/// An event of a lane at a path.
pub(crate) fn put_lane_event(
    verb: &[u8],
    lane: u8,
    path: &Path,
    out: &mut Vec<u8>,
) -> Result<(), NoMemory>
    ensures put { OnOk result (out.new.items ≡ out.old.items ++ lane_event verb.now lane path.now) }
    ensures front { StartsWith out.new.items out.old.items }
{
    put(verb, out)?;
    put_number(u64::from(lane), out)?;
    put(b" ", out)?;
    write_path(path, out)
}

/// A command that a lane ran at a path.
fn put_run(lane: u8, path: &Path, command: &Command, out: &mut Vec<u8>) -> Result<(), NoMemory>
    ensures put { OnOk result (out.new.items
        ≡ out.old.items
        ++ then_word (lane_event (codes "cmd ") lane path.now) (command_text command.now)) }
    ensures front { StartsWith out.new.items out.old.items }
{
    put_lane_event(b"cmd ", lane, path, out)?;
    put(b" ", out)?;
    put_command(command, out)
}

/// A reader that a lane opened at a path.
fn put_open(lane: u8, path: &Path, table: Table, out: &mut Vec<u8>) -> Result<(), NoMemory>
    ensures put { OnOk result (out.new.items
        ≡ out.old.items
        ++ then_word (lane_event (codes "open ") lane path.now) (table_text table)) }
    ensures front { StartsWith out.new.items out.old.items }
{
    put_lane_event(b"open ", lane, path, out)?;
    put(b" ", out)?;
    put(table_name(table), out)
}

/// A frame to a half.
fn put_delivery(half: &Half, out: &mut Vec<u8>) -> Result<(), NoMemory>
    ensures put { OnOk result (out.new.items
        ≡ out.old.items ++ codes "deliver " ++ half_text half.now) }
    ensures front { StartsWith out.new.items out.old.items }
{
    put(b"deliver ", out)?;
    write_half(half, out)
}

/// An event of a stack.
fn put_at(verb: &[u8], path: &Path, out: &mut Vec<u8>) -> Result<(), NoMemory>
    ensures put { OnOk result (out.new.items ≡ out.old.items ++ verb.now ++ path_text path.now) }
    ensures front { StartsWith out.new.items out.old.items }
{
    put(verb, out)?;
    write_path(path, out)
}
