//! Events of a history, by their words.

ghost use Rattle.std.specs.Prelude.{◌≡◌, IfOk};
ghost use Rattle.vn_types.specs.HalfWords.{half_of};
ghost use Rattle.vn_types.specs.PathWords.{path_of};
ghost use Rattle.vn_cells.specs.declared.event.Event.TheVariants as event;
ghost use Rattle.vn_shell.specs.Events.{done_of, event_of, happening_of, lane_event_of, run_of};
ghost use Rattle.vn_shell.specs.Requests.{table_of};
ghost use Rattle.vn_shell.specs.Words.{of_one, texts, wait_of};

use crate::command::{named_depth, read_command_words};
use crate::lines::MOST_LABELS;
use crate::request::read_table;
use crate::words::{read_lane, read_wait};
use std::alloc::Global;
use vn_cells::Event;
use vn_types::{NoMemory, Path, read_half, read_path};

/// The event that words mean.
#[tactic(auto, unfolding(crate::specs::Events::event_of))]
pub(crate) fn read_event(alloc: Global, words: &[&[u8]]) -> Result<Option<Event>, NoMemory>
    ensures { IfOk result (λ r. r ≡ event_of (texts words.now)) }
{
    match words {
        [verb, words @ ..] => read_happening(alloc, verb, words),
        [] => Ok(None),
    }
}

#[tactic(auto, unfolding(crate::specs::Events::happening_of))]
fn read_happening(alloc: Global, verb: &[u8], words: &[&[u8]]) -> Result<Option<Event>, NoMemory>
    ensures { IfOk result (λ r. r ≡ happening_of verb.now (texts words.now)) }
{
    if verb == b"tick".as_slice() {
        return Ok(read_tick(words));
    }
    if verb == b"deliver".as_slice() {
        return read_delivery(alloc, words);
    }
    if verb == b"loop".as_slice() {
        return read_loop(alloc, words);
    }
    if verb == b"fire".as_slice() {
        return read_fire(alloc, words);
    }
    read_lane_event(alloc, verb, words)
}

/// The clock moves on.
fn read_tick(words: &[&[u8]]) -> Option<Event>
    ensures { result ≡ of_one wait_of event.Tick (texts words.now) }
{
    match words {
        [wait] => read_wait(wait).map(|milliseconds| Event::Tick(milliseconds)),
        _ => None,
    }
}

/// A frame to a half.
fn read_delivery(alloc: Global, words: &[&[u8]]) -> Result<Option<Event>, NoMemory>
    ensures { IfOk result (λ r. r ≡ of_one half_of event.Deliver (texts words.now)) }
{
    let [half] = words else {
        return Ok(None);
    };
    Ok(read_half(alloc, half)?.map(|half| Event::Deliver(half)))
}

/// A datagram that a stack sent to itself.
fn read_loop(alloc: Global, words: &[&[u8]]) -> Result<Option<Event>, NoMemory>
    ensures { IfOk result (λ r. r ≡ of_one path_of event.LoopDeliver (texts words.now)) }
{
    let [path] = words else {
        return Ok(None);
    };
    Ok(read_path(alloc, path)?.map(|path| Event::LoopDeliver(path)))
}

/// A due timer of a stack.
fn read_fire(alloc: Global, words: &[&[u8]]) -> Result<Option<Event>, NoMemory>
    ensures { IfOk result (λ r. r ≡ of_one path_of event.Fire (texts words.now)) }
{
    let [path] = words else {
        return Ok(None);
    };
    Ok(read_path(alloc, path)?.map(|path| Event::Fire(path)))
}

/// A lane and a path, and what the lane does there.
#[tactic(auto, unfolding(crate::specs::Events::lane_event_of))]
fn read_lane_event(alloc: Global, verb: &[u8], words: &[&[u8]]) -> Result<Option<Event>, NoMemory>
    ensures { IfOk result (λ r. r ≡ lane_event_of verb.now (texts words.now)) }
{
    let [lane, path, words @ ..] = words else {
        return Ok(None);
    };
    let Some(lane) = read_lane(lane) else {
        return Ok(None);
    };
    let Some(path) = read_path(alloc, path)? else {
        return Ok(None);
    };
    read_done(alloc, verb, lane, path, words)
}

/// What a lane does at a path.
#[tactic(auto, unfolding(crate::specs::Events::done_of))]
fn read_done(
    alloc: Global,
    verb: &[u8],
    lane: u8,
    path: Path,
    words: &[&[u8]],
) -> Result<Option<Event>, NoMemory>
    ensures { IfOk result (λ r. r ≡ done_of verb.now lane path (texts words.now)) }
{
    if verb == b"cmd".as_slice() {
        return read_run(alloc, lane, path, words);
    }
    if verb == b"open".as_slice() {
        return Ok(read_open(lane, path, words));
    }
    if verb == b"next".as_slice() {
        return Ok(words.is_empty().then_some(Event::Next { lane, path }));
    }
    if verb == b"close".as_slice() {
        return Ok(words.is_empty().then_some(Event::Close { lane, path }));
    }
    Ok(None)
}

/// A command at a path: no path has more than 8 labels, seen from host.
fn read_run(alloc: Global, lane: u8, path: Path, words: &[&[u8]]) -> Result<Option<Event>, NoMemory>
    ensures { IfOk result (λ r. r ≡ run_of lane path (texts words.now)) }
{
    let Some(command) = read_command_words(alloc, words)? else {
        return Ok(None);
    };
    if path.depth() + named_depth(&command) > MOST_LABELS {
        return Ok(None);
    }
    Ok(Some(Event::Cmd {
        lane,
        path,
        command,
    }))
}

/// A reader is opened.
fn read_open(lane: u8, path: Path, words: &[&[u8]]) -> Option<Event>
    ensures { result ≡ of_one table_of (event.Open lane path) (texts words.now) }
{
    let [table] = words else {
        return None;
    };
    let table = read_table(table)?;
    Some(Event::Open { lane, path, table })
}
