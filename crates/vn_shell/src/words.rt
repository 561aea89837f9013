//! Words of a line.

ghost use Rattle.std.specs.Prelude.{◌≡◌, ◌∷◌, ◌++◌, [], IfOk, OnOk};
ghost use Rattle.std.specs.List.{filter};
ghost use Rattle.vn_shell.specs.Words.{words_of, texts, is_filled, lane_of, port_of, ttl_of, wait_of, named_of, is_form};

use std::alloc::Global;
use vn_types::{NoMemory, Path, cut, read_number, read_path};

/// As many words as most lines have.
const USUAL_WORDS: usize = 8;

/// The words of a line.
pub(crate) fn cut_words(alloc: Global, line: &[u8]) -> Result<Vec<&[u8]>, NoMemory>
    ensures { IfOk result (λ words. texts words.items ≡ words_of line.now) }
{
    let mut words = Vec::with_capacity(alloc, USUAL_WORDS)?;
    let mut rest = line;
    while let Some((piece, more)) = cut(rest, b' ') {
        put_piece(piece, &mut words)?;
        rest = more;
    }
    put_piece(rest, &mut words)?;
    Ok(words)
}

/// Puts a piece between spaces at the end, where it is a word.
fn put_piece<'a>(piece: &'a [u8], words: &mut Vec<&'a [u8]>) -> Result<(), NoMemory>
    ensures { OnOk result (texts words.new.items
        ≡ texts words.old.items ++ filter is_filled (piece.now ∷ [])) }
{
    if !piece.is_empty() {
        words.push(piece)?;
    }
    Ok(())
}

/// The number of a lane.
#[tactic(auto, unfolding(crate::specs::Words::lane_of))]
pub(crate) fn read_lane(word: &[u8]) -> Option<u8>
    ensures { result ≡ lane_of word.now }
{
    let number = read_number(word)?;
    if 1 <= number && number <= 8 {
        return Some(number as u8);
    }
    None
}

/// Milliseconds, from 1 to 86,400,000.
#[tactic(auto, unfolding(crate::specs::Words::wait_of))]
pub(crate) fn read_wait(word: &[u8]) -> Option<u64>
    ensures { result ≡ wait_of word.now }
{
    let number = read_number(word)?;
    if 1 <= number && number <= 86_400_000 {
        return Some(number);
    }
    None
}

/// Whether a word begins a line between phases.
#[tactic(auto, unfolding(crate::specs::Words::is_form))]
pub(crate) fn is_form(word: &[u8]) -> bool
    ensures { result ≡ is_form word.now }
{
    word == b"phase".as_slice() || word == b"settle".as_slice() || word == b"sleep".as_slice()
}

/// The number of a port.
#[tactic(auto, unfolding(crate::specs::Words::port_of))]
pub(crate) fn read_port(word: &[u8]) -> Option<u16>
    ensures { result ≡ port_of word.now }
{
    let number = read_number(word)?;
    if number <= 65_535 {
        return Some(number as u16);
    }
    None
}

/// A time to live.
#[tactic(auto, unfolding(crate::specs::Words::ttl_of))]
pub(crate) fn read_ttl(word: &[u8]) -> Option<u8>
    ensures { result ≡ ttl_of word.now }
{
    let number = read_number(word)?;
    if 1 <= number && number <= 255 {
        return Some(number as u8);
    }
    None
}

/// A path that a command may name: it is never `host`.
#[tactic(auto, unfolding(crate::specs::Words::named_of, vn_types::specs::Paths::is_host))]
pub(crate) fn read_named(alloc: Global, word: &[u8]) -> Result<Option<Path>, NoMemory>
    ensures { IfOk result (λ r. r ≡ named_of word.now) }
{
    let Some(path) = read_path(alloc, word)? else {
        return Ok(None);
    };
    if path.depth() == 0 {
        return Ok(None);
    }
    Ok(Some(path))
}
