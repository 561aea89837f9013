ghost use Rattle.std.specs.Prelude.{◌≡◌, ◌++◌, OnOk, OnErr};
ghost use Rattle.std.specs.Io.{StartsWith};
ghost use Rattle.std.specs.List.{flat_map};
ghost use Rattle.vn_cells.specs.sets.Sets.{in_stacks};
ghost use Rattle.vn_text.specs.Whole.{chosen_text, given, is_chosen, pool_text, transcripts_text, report_text};

use crate::history::put_history;
use crate::put::{put, put_number};
use crate::section::put_section;
use vn_cells::{Cells, Report, SectionText};
use vn_types::{NoMemory, Path, restore};

/// Puts a report at the end of the output: its transcripts, its readers and versions, and its history.
pub fn write_report(report: &Report, out: &mut Vec<u8>) -> Result<(), NoMemory>
    ensures written { OnOk result (out.new.items ≡ out.old.items ++ report_text report.now) }
    ensures kept { OnErr result (out.new.items ≡ out.old.items) }
{
    let start = out.len();
    restore(put_report(report, out), start, out)
}

#[tactic(auto, using(crate::proofs::Putting::report_put))]
fn put_report(report: &Report, out: &mut Vec<u8>) -> Result<(), NoMemory>
    ensures put { OnOk result (out.new.items ≡ out.old.items ++ report_text report.now) }
    ensures front { StartsWith out.new.items out.old.items }
{
    put_transcripts(report, None, out)?;
    put_history(report.history.events(), out)
}

/// Puts a report's transcripts at the end of the output, in their order: all of them, or those of the
/// paths of `only`. Behind them it puts the line of the readers that are open and the table versions kept
/// for them.
pub fn write_sections(
    report: &Report,
    only: Option<&Cells>,
    out: &mut Vec<u8>,
) -> Result<(), NoMemory>
    ensures written { OnOk result (out.new.items
        ≡ out.old.items ++ transcripts_text (given only.entry) report.now) }
    ensures kept { OnErr result (out.new.items ≡ out.old.items) }
{
    let start = out.len();
    restore(put_transcripts(report, only, out), start, out)
}

#[tactic(auto, using(crate::proofs::Putting::transcripts_put))]
fn put_transcripts(report: &Report, only: Option<&Cells>, out: &mut Vec<u8>) -> Result<(), NoMemory>
    ensures put { OnOk result (out.new.items
        ≡ out.old.items ++ transcripts_text (given only.entry) report.now) }
    ensures front { StartsWith out.new.items out.old.items }
{
    put_sections(report.sections.as_slice(), only, out)?;
    put_pool(report.opened, report.kept, out)
}

fn put_sections(
    sections: &[SectionText],
    only: Option<&Cells>,
    out: &mut Vec<u8>,
) -> Result<(), NoMemory>
    ensures put { OnOk result (out.new.items
        ≡ out.old.items ++ flat_map (chosen_text (given only.entry)) sections.now) }
    ensures front { StartsWith out.new.items out.old.items }
{
    for section in sections {
        put_chosen(section, only, out)?;
    }
    Ok(())
}

/// A transcript, where its path is asked for.
fn put_chosen(
    section: &SectionText,
    only: Option<&Cells>,
    out: &mut Vec<u8>,
) -> Result<(), NoMemory>
    ensures put { OnOk result (out.new.items
        ≡ out.old.items ++ chosen_text (given only.entry) section.now) }
    ensures front { StartsWith out.new.items out.old.items }
{
    if !is_chosen(only, &section.path) {
        return Ok(());
    }
    put_section(section, out)
}

fn is_chosen(only: Option<&Cells>, path: &Path) -> bool
    ensures { result ≡ is_chosen (given only.entry) path.now }
{
    match only {
        Some(set) => has_path(set, path),
        None => true,
    }
}

#[tactic(auto, unfolding(vn_cells::specs::sets::Sets::in_stacks))]
fn has_path(set: &Cells, path: &Path) -> bool
    ensures { result ≡ in_stacks set.now path.now }
{
    set.paths.as_slice().iter().any(|own| path == own)
}

fn put_pool(opened: u64, kept: u64, out: &mut Vec<u8>) -> Result<(), NoMemory>
    ensures put { OnOk result (out.new.items ≡ out.old.items ++ pool_text opened kept) }
    ensures front { StartsWith out.new.items out.old.items }
{
    put(b"== pool open ", out)?;
    put_number(opened, out)?;
    put(b" kept ", out)?;
    put_number(kept, out)?;
    put(b"\n", out)
}
