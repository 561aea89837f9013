ghost use Rattle.std.specs.Prelude.{◌≡◌, MatchResult, None, Some, string_bytes};
ghost use Rattle.vn_bench.specs.Words.{part_of, task_of};
ghost use Rattle.vn_types.specs.NumberWords.{number_of};

use anyhow::{Result, bail};
use vn_types::read_number;

/// The rounds where no number is given.
const ROUNDS: u64 = 2000;

/// What is done in each round.
#[derive(Clone, Copy, PartialEq, Eq)]
pub enum Part {
    Both,
    Sum,
    Headers,
}

/// The part and the number of rounds that the words of the command line ask for. The first word is
/// the program's name.
pub fn read_words(words: &[String]) -> Result<(Part, u64)>
    ensures { MatchResult result (λ task. task_of words.now ≡ Some task)
        (λ _. task_of words.now ≡ None) }
{
    match words {
        [] | [_] => Ok((Part::Both, ROUNDS)),
        [_, name] => Ok((read_part(name)?, ROUNDS)),
        [_, name, rounds] => Ok((read_part(name)?, read_rounds(rounds)?)),
        _ => bail!("there are more than two words"),
    }
}

fn read_part(name: &String) -> Result<Part>
    ensures { MatchResult result (λ part. part_of (string_bytes name.now) ≡ Some part)
        (λ _. part_of (string_bytes name.now) ≡ None) }
{
    match name.as_str() {
        "sum" => Ok(Part::Sum),
        "headers" => Ok(Part::Headers),
        other => bail!("{other:?} is neither sum nor headers"),
    }
}

fn read_rounds(word: &String) -> Result<u64>
    ensures { MatchResult result (λ rounds. number_of (string_bytes word.now) ≡ Some rounds)
        (λ _. number_of (string_bytes word.now) ≡ None) }
{
    match read_number(word.as_bytes()) {
        Some(rounds) => Ok(rounds),
        None => bail!("{word:?} is no number of rounds"),
    }
}
