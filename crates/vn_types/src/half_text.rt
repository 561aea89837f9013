ghost use Rattle.std.specs.Prelude.{◌≡◌, ◌++◌, Some, IfOk, IfSome, OnOk, OnErr};
ghost use Rattle.std.specs.Io.{StartsWith};
ghost use Rattle.vn_types.specs.HalfWords.{half_parts, half_of, half_text};

use crate::half::Half;
use crate::interface_text::{put_unit_side, read_unit_side};
use crate::memory::NoMemory;
use crate::path_text::read_path;
use crate::text::{cut, put, put_number, restore};
use std::alloc::Global;

/// The half that a text spells: its home, `/`, its unit and its side.
pub fn read_half(alloc: Global, text: &[u8]) -> Result<Option<Half>, NoMemory>
    ensures half { IfOk result (λ r. r ≡ half_of text.now) }
    // A half is written as it was read.
    ensures canonical { IfOk result (λ r. IfSome r (λ half. half_text half ≡ text.now)) }
{
    match cut(text, b'/') {
        Some((home, unit)) => half_of_parts(alloc, home, unit),
        None => Ok(None),
    }
}

#[tactic(auto, unfolding(crate::specs::HalfWords::half_parts))]
fn half_of_parts(alloc: Global, home: &[u8], unit: &[u8]) -> Result<Option<Half>, NoMemory>
    ensures { IfOk result (λ r. r ≡ half_parts home.now unit.now) }
{
    let Some((unit, side)) = read_unit_side(unit) else {
        return Ok(None);
    };
    let Some(home) = read_path(alloc, home)? else {
        return Ok(None);
    };
    Ok(Some(Half { home, unit, side }))
}

/// Puts a half at the end of the output.
pub fn write_half(half: &Half, out: &mut Vec<u8>) -> Result<(), NoMemory>
    ensures written { OnOk result (out.new.items ≡ out.old.items ++ half_text half.now) }
    ensures kept { OnErr result (out.new.items ≡ out.old.items) }
    // What is written is read.
    ensures read_back { half_of (half_text half.now) ≡ Some half.now }
{
    let start = out.len();
    let written = put_half(half, out);
    restore(written, start, out)
}

fn put_half(half: &Half, out: &mut Vec<u8>) -> Result<(), NoMemory>
    ensures put { OnOk result (out.new.items ≡ out.old.items ++ half_text half.now) }
    ensures front { StartsWith out.new.items out.old.items }
    ensures read_back { half_of (half_text half.now) ≡ Some half.now }
{
    let unit = half.unit;
    put(half.home.text(), out)?;
    put(b"/", out)?;
    put_unit_side(unit, half.side, out)
}
