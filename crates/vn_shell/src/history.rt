//! Histories, as they are read.

ghost use Rattle.std.specs.Prelude.{◌≡◌, [], true, IfOk, IfErr, Ok};
ghost use Rattle.std.specs.List.{list_all};
ghost use Rattle.vn_cells.specs.machine.Events.{is_valid_event};
ghost use Rattle.vn_shell.specs.Histories.{RefusesHistory, events_from, history_line_of, history_of, is_first, is_first_line, is_last, is_version, nothing_behind, told_by};
ghost use Rattle.vn_shell.specs.Words.{lines_of, texts};
ghost use Rattle.vn_shell.specs.declared.history.HistoryFault.TheVariants.{NoMemory as Lack};

use crate::event::read_event;
use crate::lines::{is_text, next_line};
use crate::words::cut_words;
use std::alloc::Global;
use vn_cells::{Event, History};
use vn_types::NoMemory;

/// The most octets that a line has, without its end.
const MOST_OCTETS: usize = 4352;

/// Why there is no history.
#[derive(Drop)]
pub enum HistoryFault {
    /// The first line that is refused, counted from 1: the one behind all others where the last is missing.
    BadHistory(u64),
    NoMemory,
}

impl From<NoMemory> for HistoryFault {
    ghost from_gives = { λ _ e. e ≡ Lack };

    fn from(_lack: NoMemory) -> HistoryFault {
        HistoryFault::NoMemory
    }
}

/// What a line of a history means that is not the first.
#[derive(Drop)]
enum HistoryLine {
    Happened(Event),
    /// The last line.
    Last,
}

/// Reads a history: the line `== history 1`, a line for each event, and the line `== end`. A line ends with
/// octet 0x0a or with the text; it has at most 4,352 octets from 0x20 to 0x7e, and its words stand between
/// spaces. None is empty or a comment, and a command may have any spelling.
pub fn read_history(alloc: Global, text: &[u8]) -> Result<History, HistoryFault>
    ensures ok { IfOk result (λ h. history_of text.now ≡ Ok h) }
    ensures bad { IfErr result (λ e. RefusesHistory (history_of text.now) e) }
    // The events can happen.
    ensures valid { IfOk result (λ h. list_all is_valid_event h ≡ true) }
{
    let Some((line, rest)) = next_line(text) else {
        return Err(HistoryFault::BadHistory(1));
    };
    let first = is_first_line(alloc, line)?;
    if first {
        return read_events(alloc, rest);
    }
    Err(HistoryFault::BadHistory(1))
}

#[tactic(auto, unfolding(crate::specs::Histories::is_first_line))]
fn is_first_line(alloc: Global, line: &[u8]) -> Result<bool, NoMemory>
    ensures { IfOk result (λ b. b ≡ is_first_line line.now) }
{
    if !is_text(MOST_OCTETS, line) {
        return Ok(false);
    }
    let words = cut_words(alloc, line)?;
    Ok(is_first(words.as_slice()))
}

/// The events behind the first line, and the last line.
fn read_events(alloc: Global, text: &[u8]) -> Result<History, HistoryFault>
    ensures ok { IfOk result (λ h. events_from 2 (lines_of text.now) ≡ Ok h) }
    ensures bad { IfErr result (λ e. RefusesHistory (events_from 2 (lines_of text.now)) e) }
{
    let mut history = History::new(alloc);
    let mut number: u64 = 1;
    let mut left = text;
    while let Some((line, more)) = next_line(left) {
        number += 1;
        match read_line(alloc, line)? {
            Some(HistoryLine::Happened(event)) => history.push(event)?,
            Some(HistoryLine::Last) => return end(history, number + 1, more),
            None => return Err(HistoryFault::BadHistory(number)),
        }
        left = more;
    }
    Err(HistoryFault::BadHistory(number + 1))
}

/// The history, where no line stands behind its last.
fn end(history: History, number: u64, text: &[u8]) -> Result<History, HistoryFault>
    ensures ok { IfOk result (λ h. (h ≡ history) × (lines_of text.now ≡ [])) }
    ensures bad { IfErr result (λ e. RefusesHistory (nothing_behind number (lines_of text.now)) e) }
{
    match next_line(text) {
        Some(_) => Err(HistoryFault::BadHistory(number)),
        None => Ok(history),
    }
}

/// What a line means.
#[tactic(auto, unfolding(crate::specs::Histories::history_line_of))]
fn read_line(alloc: Global, line: &[u8]) -> Result<Option<HistoryLine>, NoMemory>
    ensures { IfOk result (λ r. r ≡ history_line_of line.now) }
{
    if !is_text(MOST_OCTETS, line) {
        return Ok(None);
    }
    let words = cut_words(alloc, line)?;
    read_words(alloc, words.as_slice())
}

#[tactic(auto, unfolding(crate::specs::Histories::told_by))]
fn read_words(alloc: Global, words: &[&[u8]]) -> Result<Option<HistoryLine>, NoMemory>
    ensures { IfOk result (λ r. r ≡ told_by (texts words.now)) }
{
    if is_last(words) {
        return Ok(Some(HistoryLine::Last));
    }
    Ok(read_event(alloc, words)?.map(|event| HistoryLine::Happened(event)))
}

/// Whether words are those of the first line.
fn is_first(words: &[&[u8]]) -> bool
    ensures { result ≡ is_first (texts words.now) }
{
    match words {
        [mark, word, version] => *mark == b"==".as_slice() && is_version(word, version),
        _ => false,
    }
}

/// Whether two words are `history 1`.
fn is_version(word: &[u8], version: &[u8]) -> bool
    ensures { result ≡ is_version word.now version.now }
{
    word == b"history".as_slice() && version == b"1".as_slice()
}

/// Whether words are those of the last line.
fn is_last(words: &[&[u8]]) -> bool
    ensures { result ≡ is_last (texts words.now) }
{
    match words {
        [mark, word] => *mark == b"==".as_slice() && *word == b"end".as_slice(),
        _ => false,
    }
}
