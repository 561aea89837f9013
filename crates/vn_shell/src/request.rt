//! What a lane asks for at a path.

ghost use Rattle.std.specs.Prelude.{◌≡◌, ◌≤◌, IfOk};
ghost use Rattle.vn_shell.specs.Requests.{table_of, listing_of, step_of, reading_of, request_of, depth_in};
ghost use Rattle.vn_shell.specs.Words.{texts};

use crate::command::{named_depth, read_command_words};
use std::alloc::Global;
use vn_cells::{Line, Table};
use vn_types::NoMemory;

/// What words ask for.
#[tactic(auto, unfolding(crate::specs::Requests::request_of))]
pub(crate) fn read_request(alloc: Global, words: &[&[u8]]) -> Result<Option<Line>, NoMemory>
    ensures { IfOk result (λ r. r ≡ request_of (texts words.now)) }
{
    if let Some(line) = read_reading(words) {
        return Ok(Some(line));
    }
    match read_command_words(alloc, words)? {
        Some(command) => Ok(Some(Line::Cmd(command))),
        None => Ok(None),
    }
}

/// A listing, a reader's step, or a watch.
#[tactic(auto, unfolding(crate::specs::Requests::reading_of))]
fn read_reading(words: &[&[u8]]) -> Option<Line>
    ensures { result ≡ reading_of (texts words.now) }
{
    match words {
        [word] => read_step(word),
        [word, other] => {
            if *word == b"open".as_slice() {
                return read_table(other).map(|table| Line::Open(table));
            }
            read_listing(word, other).map(|table| Line::List(table))
        }
        _ => None,
    }
}

#[tactic(auto, unfolding(crate::specs::Requests::step_of))]
fn read_step(word: &[u8]) -> Option<Line>
    ensures { result ≡ step_of word.now }
{
    if word == b"next".as_slice() {
        return Some(Line::Next);
    }
    if word == b"close".as_slice() {
        return Some(Line::Close);
    }
    if word == b"watch".as_slice() {
        return Some(Line::Watch);
    }
    None
}

/// A table by its name.
#[tactic(auto, unfolding(crate::specs::Requests::table_of))]
pub(crate) fn read_table(word: &[u8]) -> Option<Table>
    ensures { result ≡ table_of word.now }
{
    if word == b"if".as_slice() {
        return Some(Table::If);
    }
    if word == b"route".as_slice() {
        return Some(Table::Route);
    }
    if word == b"arp".as_slice() {
        return Some(Table::Arp);
    }
    None
}

/// A table by the program that lists it (ifconfig(8), netstat(1), arp(8)).
#[tactic(auto, unfolding(crate::specs::Requests::listing_of))]
fn read_listing(program: &[u8], option: &[u8]) -> Option<Table>
    ensures { result ≡ listing_of program.now option.now }
{
    if program == b"ifconfig".as_slice() && option == b"-a".as_slice() {
        return Some(Table::If);
    }
    if program == b"netstat".as_slice() && option == b"-rn".as_slice() {
        return Some(Table::Route);
    }
    if program == b"arp".as_slice() && option == b"-an".as_slice() {
        return Some(Table::Arp);
    }
    None
}

/// How many labels the path has that a command names.
pub(crate) fn depth_in(line: &Line) -> u64
    ensures depth { result ≡ depth_in line.now }
    ensures most { result ≤ 8 }
{
    match line {
        Line::Cmd(command) => named_depth(command),
        _ => 0,
    }
}
