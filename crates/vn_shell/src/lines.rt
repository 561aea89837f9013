//! Lines of a script.

ghost use Rattle.std.specs.Prelude.{◌≡◌, ◌<◌, ◌∷◌, [], length, IfSome, IfNone};
ghost use Rattle.std.specs.List.{list_all};
ghost use Rattle.vn_shell.specs.Grammar.{break_of, end_of, between, issuer_of, taken, asked_at, line_of_words, is_printable, is_text, is_comment, line_of};
ghost use Rattle.vn_shell.specs.Readings.{Gives, GivesBy};
ghost use Rattle.vn_shell.specs.Words.{lines_of, texts};

use crate::fault::LineFault;
use crate::forms::Forms;
use crate::item::Item;
use crate::request::{depth_in, read_request};
use crate::script::Reason;
use crate::words::{cut_words, is_form, read_lane, read_wait};
use std::alloc::Global;
use vn_cells::{LaneLine, Line};
use vn_types::{Path, place_of, read_path};

/// The most octets that a line has, without its end.
const MOST_OCTETS: usize = 4096;

/// The most labels that a path has, seen from host.
pub(crate) const MOST_LABELS: u64 = 8;

/// The first line of a text, and what stands after it.
pub(crate) fn next_line(text: &[u8]) -> Option<(&[u8], &[u8])>
    ensures none { IfNone result (lines_of text.now ≡ []) }
    ensures some { IfSome result (λ r. lines_of text.now ≡ r.0.now ∷ lines_of r.1.now) }
    ensures shorter { IfSome result (λ r. length r.1.now < length text.now) }
{
    if text.is_empty() {
        return None;
    }
    match place_of(text, b'\n') {
        Some(place) => Some((&text[..place], &text[place + 1..])),
        None => Some((text, b"")),
    }
}

/// What a line means, and nothing where it is skipped.
#[tactic(auto, unfolding(crate::specs::Grammar::line_of))]
pub(crate) fn read_line(alloc: Global, forms: Forms, line: &[u8]) -> Result<Option<Item>, LineFault>
    ensures { Gives result (line_of forms line.now) }
{
    if !is_text(MOST_OCTETS, line) {
        return Err(LineFault::Refused(Reason::Text));
    }
    if is_comment(line) {
        return Ok(None);
    }
    let words = cut_words(alloc, line)?;
    read_words(alloc, forms, words.as_slice())
}

fn are_printable(line: &[u8]) -> bool
    ensures { result ≡ list_all is_printable line.now }
{
    line.iter().all(|c| 0x20 <= *c && *c <= 0x7e)
}

/// Whether a line has at most so many octets, each from 0x20 to 0x7e.
#[tactic(auto, unfolding(crate::specs::Grammar::is_text))]
pub(crate) fn is_text(most: usize, line: &[u8]) -> bool
    ensures { result ≡ is_text most line.now }
{
    are_printable(line) && line.len() <= most
}

#[tactic(auto, unfolding(crate::specs::Grammar::is_comment))]
fn is_comment(line: &[u8]) -> bool
    ensures { result ≡ is_comment line.now }
{
    matches!(line, [b'#', ..])
}

/// What the words of a line mean.
#[tactic(auto, unfolding(crate::specs::Grammar::line_of_words))]
fn read_words(alloc: Global, forms: Forms, words: &[&[u8]]) -> Result<Option<Item>, LineFault>
    ensures { Gives result (line_of_words forms (texts words.now)) }
{
    let [word, rest @ ..] = words else {
        return Ok(None);
    };
    if is_form(word) {
        return read_between(forms, words);
    }
    let lane = read_lane(word).ok_or(Reason::Lane)?;
    let (path, rest) = read_issuer(alloc, rest)?;
    let line = read_asked(alloc, forms, &path, rest)?;
    Ok(Some(Item::Lane(LaneLine { lane, path, line })))
}

/// A line between phases.
#[tactic(auto, unfolding(crate::specs::Grammar::between))]
fn read_between(forms: Forms, words: &[&[u8]]) -> Result<Option<Item>, LineFault>
    ensures { Gives result (between forms (texts words.now)) }
{
    if !forms.takes_breaks() {
        return Err(LineFault::Refused(Reason::Command));
    }
    let item = read_break(words).ok_or(Reason::Command)?;
    Ok(Some(item))
}

/// `phase`, `settle`, or `sleep N`.
#[tactic(auto, unfolding(crate::specs::Grammar::break_of))]
fn read_break(words: &[&[u8]]) -> Option<Item>
    ensures { result ≡ break_of (texts words.now) }
{
    match words {
        [word] => read_end(word),
        [word, wait] => {
            if *word == b"sleep".as_slice() {
                let milliseconds = read_wait(wait)?;
                return Some(Item::Sleep(milliseconds));
            }
            None
        }
        _ => None,
    }
}

/// `phase` or `settle`.
fn read_end(word: &[u8]) -> Option<Item>
    ensures { result ≡ end_of word.now }
{
    if word == b"phase".as_slice() {
        return Some(Item::Phase);
    }
    if word == b"settle".as_slice() {
        return Some(Item::Settle);
    }
    None
}

/// The path of a lane's line, and the words behind it.
#[tactic(auto, unfolding(crate::specs::Grammar::issuer_of))]
fn read_issuer<'w, 'a>(
    alloc: Global,
    words: &'w [&'a [u8]],
) -> Result<(Path, &'w [&'a [u8]]), LineFault>
    ensures { GivesBy (λ r. (r.0, texts r.1.now)) result (issuer_of (texts words.now)) }
{
    let [word, words @ ..] = words else {
        return Err(LineFault::Refused(Reason::Path));
    };
    let path = read_path(alloc, word)?.ok_or(Reason::Path)?;
    Ok((path, words))
}

/// What is asked for, where the form is taken.
#[tactic(auto, unfolding(crate::specs::Grammar::taken))]
fn read_taken(alloc: Global, forms: Forms, words: &[&[u8]]) -> Result<Line, LineFault>
    ensures { Gives result (taken forms (texts words.now)) }
{
    let line = read_request(alloc, words)?.ok_or(Reason::Command)?;
    if !forms.takes_line(&line) {
        return Err(LineFault::Refused(Reason::Command));
    }
    Ok(line)
}

/// What is asked for at a path: no path has more than 8 labels, seen from host.
#[tactic(auto, unfolding(crate::specs::Grammar::asked_at))]
fn read_asked(alloc: Global, forms: Forms, path: &Path, words: &[&[u8]]) -> Result<Line, LineFault>
    ensures { Gives result (asked_at forms path.now (texts words.now)) }
{
    let line = read_taken(alloc, forms, words)?;
    if path.depth() + depth_in(&line) > MOST_LABELS {
        return Err(LineFault::Refused(Reason::Depth));
    }
    Ok(line)
}
