ghost use Rattle.std.specs.Prelude.{◌≡◌, ◌++◌, OnOk, OnErr};
ghost use Rattle.std.specs.Io.{StartsWith};
ghost use Rattle.std.specs.List.{flat_map};
ghost use Rattle.vn_text.specs.Watches.{listed_line, listed_text, moment_text, watch_text, watches_text};

use crate::history::put_lane_event;
use crate::listing::put_if_row;
use crate::put::{put, put_number};
use vn_cells::{IfRow, Watch};
use vn_types::{List, NoMemory, restore};

/// Puts watches at the end of the output below their heading, and nothing where there is none.
pub fn write_watches(watches: &[Watch], out: &mut Vec<u8>) -> Result<(), NoMemory>
    ensures written { OnOk result (out.new.items ≡ out.old.items ++ watches_text watches.now) }
    ensures kept { OnErr result (out.new.items ≡ out.old.items) }
{
    let start = out.len();
    restore(put_watches(watches, out), start, out)
}

fn put_watches(watches: &[Watch], out: &mut Vec<u8>) -> Result<(), NoMemory>
    ensures put { OnOk result (out.new.items ≡ out.old.items ++ watches_text watches.now) }
    ensures front { StartsWith out.new.items out.old.items }
{
    if watches.is_empty() {
        return Ok(());
    }
    put(b"== watches\n", out)?;
    put_each(watches, out)
}

/// Watches in their order.
fn put_each(watches: &[Watch], out: &mut Vec<u8>) -> Result<(), NoMemory>
    ensures put { OnOk result (out.new.items ≡ out.old.items ++ flat_map watch_text watches.now) }
    ensures front { StartsWith out.new.items out.old.items }
{
    for watch in watches {
        put_watch(watch, out)?;
    }
    Ok(())
}

fn put_watch(watch: &Watch, out: &mut Vec<u8>) -> Result<(), NoMemory>
    ensures put { OnOk result (out.new.items ≡ out.old.items ++ watch_text watch.now) }
    ensures front { StartsWith out.new.items out.old.items }
{
    put_moment(watch, out)?;
    put_listed(&watch.rows, out)
}

/// Who watched which path, and after how many events.
fn put_moment(watch: &Watch, out: &mut Vec<u8>) -> Result<(), NoMemory>
    ensures put { OnOk result (out.new.items ≡ out.old.items ++ moment_text watch.now) }
    ensures front { StartsWith out.new.items out.old.items }
{
    put_lane_event(b"watch ", watch.lane, &watch.path, out)?;
    put(b" ", out)?;
    put_number(watch.at, out)?;
    put(b"\n", out)
}

/// The listing, or that the path was not alive.
fn put_listed(rows: &Option<List<IfRow>>, out: &mut Vec<u8>) -> Result<(), NoMemory>
    ensures put { OnOk result (out.new.items ≡ out.old.items ++ listed_text rows.now) }
    ensures front { StartsWith out.new.items out.old.items }
{
    match rows {
        Some(rows) => put_rows(rows.as_slice(), out),
        None => put(b"| dead\n", out),
    }
}

fn put_rows(rows: &[IfRow], out: &mut Vec<u8>) -> Result<(), NoMemory>
    ensures put { OnOk result (out.new.items ≡ out.old.items ++ flat_map listed_line rows.now) }
    ensures front { StartsWith out.new.items out.old.items }
{
    for row in rows {
        put_row(row, out)?;
    }
    Ok(())
}

fn put_row(row: &IfRow, out: &mut Vec<u8>) -> Result<(), NoMemory>
    ensures put { OnOk result (out.new.items ≡ out.old.items ++ listed_line row.now) }
    ensures front { StartsWith out.new.items out.old.items }
{
    put(b"| ", out)?;
    put_if_row(row, out)?;
    put(b"\n", out)
}
