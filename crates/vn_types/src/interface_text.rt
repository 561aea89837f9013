ghost use Rattle.std.specs.Prelude.{◌≡◌, ◌∷◌, [], ◌++◌, Some, IfSome, OnOk, OnErr};
ghost use Rattle.std.specs.Io.{StartsWith};
ghost use Rattle.vn_types.specs.InterfaceWords.{side_of, unit_side_parts, unit_side_of, side_letter, epair_of, ifname_of, ifname_text, unit_side_text};

use crate::interface::{IfName, Side};
use crate::memory::NoMemory;
use crate::number::read_unit;
use crate::text::{put, put_number, restore};

/// The name of an interface that a text spells: `lo0`, or `epair` with a unit and `a` or `b`.
pub fn read_ifname(text: &[u8]) -> Option<IfName>
    ensures name { result ≡ ifname_of text.now }
    // A name is written as it was read.
    ensures canonical { IfSome result (λ name. ifname_text name ≡ text.now) }
{
    if text == b"lo0".as_slice() {
        return Some(IfName::Lo0);
    }
    read_epair(text)
}

#[tactic(auto, unfolding(crate::specs::InterfaceWords::epair_of))]
fn read_epair(text: &[u8]) -> Option<IfName>
    ensures { result ≡ epair_of text.now }
{
    let rest = text.strip_prefix(b"epair".as_slice())?;
    let (unit, side) = read_unit_side(rest)?;
    Some(IfName::Epair { unit, side })
}

/// The unit and the side that a text spells.
pub(crate) fn read_unit_side(text: &[u8]) -> Option<(u32, Side)>
    ensures { result ≡ unit_side_of text.now }
{
    let (side, unit) = text.split_last()?;
    unit_side_of_parts(unit, *side)
}

#[tactic(auto, unfolding(crate::specs::InterfaceWords::unit_side_parts))]
fn unit_side_of_parts(unit: &[u8], side: u8) -> Option<(u32, Side)>
    ensures { result ≡ unit_side_parts unit.now side }
{
    let side = read_side(side)?;
    let unit = read_unit(unit)?;
    Some((unit, side))
}

#[tactic(auto, unfolding(crate::specs::InterfaceWords::side_of))]
fn read_side(letter: u8) -> Option<Side>
    ensures { result ≡ side_of letter }
{
    match letter {
        b'a' => Some(Side::A),
        b'b' => Some(Side::B),
        _ => None,
    }
}

/// Puts the name of an interface at the end of the output.
pub fn write_ifname(name: IfName, out: &mut Vec<u8>) -> Result<(), NoMemory>
    ensures written { OnOk result (out.new.items ≡ out.old.items ++ ifname_text name) }
    ensures kept { OnErr result (out.new.items ≡ out.old.items) }
    // What is written is read.
    ensures read_back { ifname_of (ifname_text name) ≡ Some name }
{
    let start = out.len();
    let written = put_ifname(name, out);
    restore(written, start, out)
}

#[tactic(auto, unfolding(crate::specs::InterfaceWords::ifname_text))]
fn put_ifname(name: IfName, out: &mut Vec<u8>) -> Result<(), NoMemory>
    ensures put { OnOk result (out.new.items ≡ out.old.items ++ ifname_text name) }
    ensures front { StartsWith out.new.items out.old.items }
    ensures read_back { ifname_of (ifname_text name) ≡ Some name }
{
    match name {
        IfName::Lo0 => put(b"lo0", out),
        IfName::Epair { unit, side } => {
            put(b"epair", out)?;
            put_unit_side(unit, side, out)
        }
    }
}

/// Puts a unit and a side at the end of the output.
#[tactic(auto, unfolding(crate::specs::InterfaceWords::unit_side_text))]
pub(crate) fn put_unit_side(unit: u32, side: Side, out: &mut Vec<u8>) -> Result<(), NoMemory>
    ensures put { OnOk result (out.new.items ≡ out.old.items ++ unit_side_text unit side) }
    ensures front { StartsWith out.new.items out.old.items }
{
    put_number(u64::from(unit), out)?;
    put(letter(side), out)
}

/// The letter of a side.
fn letter(side: Side) -> &'static [u8]
    ensures { result.now ≡ side_letter side ∷ [] }
{
    match side {
        Side::A => b"a",
        Side::B => b"b",
    }
}
