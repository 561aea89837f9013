//! Sums of octets, and headers that are written and read, many times over: for those who measure time.
//! Without words it does 2,000 rounds of both; `sum ROUNDS` and `headers ROUNDS` do one of them.
#![tactic(auto)]

mod headers;
mod sums;
mod words;

use crate::headers::folded_headers;
use crate::sums::folded_sums;
use crate::words::{Part, read_words};
use anyhow::Result;
use std::env;

fn main(rt: HostRuntime) -> Result<()> {
    let words: Vec<String> = env::args(&rt)?.collect(rt.alloc())?;
    let (part, rounds) = read_words(&words)?;
    if part != Part::Headers {
        println!(rt; "sum {:04x}", folded_sums(rounds))?;
    }
    if part != Part::Sum {
        println!(rt; "headers {:04x}", folded_headers(rounds))?;
    }
    Ok(())
}
