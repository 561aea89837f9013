ghost use Rattle.std.specs.Prelude.{◌≡◌, [], true, IfOk, IfErr, Ok};
ghost use Rattle.vn_cells.specs.machine.Events.{is_valid_script};
ghost use Rattle.vn_shell.specs.Grammar.{items_from, line_of, script_by, script_of, whole_script_of};
ghost use Rattle.vn_shell.specs.Readings.{Refuses, RefusesAt, IsPut, is_built_script, no_parts, parts_in};
ghost use Rattle.vn_shell.specs.Words.{lines_of};
ghost use Rattle.vn_shell.specs.declared.script.ScriptFault.TheVariants.{NoMemory as Lack};

use crate::forms::Forms;
use crate::lines::{next_line, read_line};
use crate::parts::Parts;
use std::alloc::Global;
use vn_cells::{Part, Script};
use vn_types::{List, NoMemory};

/// Why a line of a script is refused: the first reason that applies, in this order.
#[derive(Drop)]
pub enum Reason {
    /// An octet outside 0x20 to 0x7e, or more than 4,096 octets.
    Text,
    /// The first word is no lane, and none of `phase`, `settle` and `sleep`.
    Lane,
    /// The second word is no path.
    Path,
    /// The rest is no form, or none that is taken.
    Command,
    /// The path of the lane and the path in the command have more than 8 labels together.
    Depth,
}

/// Why there is no script.
#[derive(Drop)]
pub enum ScriptFault {
    /// The first line that is refused, counted from 1, and why.
    Script { line: u64, reason: Reason },
    NoMemory,
}

impl From<NoMemory> for ScriptFault {
    ghost from_gives = { λ _ e. e ≡ Lack };

    fn from(_lack: NoMemory) -> ScriptFault {
        ScriptFault::NoMemory
    }
}

/// Reads a script of the forms that the program runs. A line ends with octet 0x0a or with the text,
/// and its words stand between spaces. A line without words, or whose first octet is `#`, is skipped.
/// Any other is a line of a lane: `LANE PATH COMMAND`, where LANE is `1` to `8`. All lines of lanes
/// make one phase.
#[tactic(auto, using(crate::proofs::Scripts::empty_script))]
pub fn read_script(alloc: Global, text: &[u8]) -> Result<Script, ScriptFault>
    ensures ok { IfOk result (λ s. script_of text.now ≡ Ok s) }
    ensures script { IfErr result (λ e. Refuses (script_of text.now) e) }
    ensures empty { script_of [] ≡ Ok no_parts }
    // The events of each part can happen.
    ensures valid { IfOk result (λ s. is_valid_script s ≡ true) }
    // And the program runs them.
    ensures built { IfOk result (λ s. is_built_script s ≡ true) }
{
    read_by(alloc, Forms::Built, text)
}

/// Reads a script by the whole grammar. A line between those of lanes is `phase`, `settle` or `sleep N`
/// with N from 1 to 86,400,000. Lane lines that no such line stands between make one phase.
pub fn read_whole_script(alloc: Global, text: &[u8]) -> Result<Script, ScriptFault>
    ensures ok { IfOk result (λ s. whole_script_of text.now ≡ Ok s) }
    ensures script { IfErr result (λ e. Refuses (whole_script_of text.now) e) }
    ensures valid { IfOk result (λ s. is_valid_script s ≡ true) }
{
    read_by(alloc, Forms::All, text)
}

/// Reads a script where these forms are taken.
fn read_by(alloc: Global, forms: Forms, text: &[u8]) -> Result<Script, ScriptFault>
    ensures ok { IfOk result (λ s. script_by forms text.now ≡ Ok s) }
    ensures script { IfErr result (λ e. Refuses (script_by forms text.now) e) }
    ensures valid { IfOk result (λ s. is_valid_script s ≡ true) }
{
    let parts = read_parts(alloc, forms, text)?;
    Ok(Script { parts })
}

/// The parts of a script, in their order.
fn read_parts(alloc: Global, forms: Forms, text: &[u8]) -> Result<List<Part>, ScriptFault>
    ensures ok { IfOk result (λ ps. parts_in (items_from forms 1 (lines_of text.now)) ≡ Ok ps) }
    ensures script { IfErr result (λ e. Refuses (parts_in (items_from forms 1 (lines_of text.now))) e) }
{
    let mut parts = Parts::new(alloc);
    let mut number: u64 = 0;
    let mut rest = text;
    while let Some((line, more)) = next_line(rest) {
        number += 1;
        parts = with_line(alloc, forms, number, line, parts)?;
        rest = more;
    }
    let parts = parts.finish()?;
    Ok(parts)
}

/// The parts with what one more line means, where it is not skipped.
fn with_line(
    alloc: Global,
    forms: Forms,
    number: u64,
    line: &[u8],
    parts: Parts,
) -> Result<Parts, ScriptFault>
    ensures ok { IfOk result (λ r. IsPut (line_of forms line.now) parts r) }
    ensures script { IfErr result (λ e. RefusesAt number (line_of forms line.now) e) }
{
    match read_line(alloc, forms, line) {
        Ok(Some(item)) => {
            let parts = parts.with(item)?;
            Ok(parts)
        }
        Ok(None) => Ok(parts),
        Err(fault) => Err(fault.at(number)),
    }
}
