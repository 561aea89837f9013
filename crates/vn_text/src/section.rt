ghost use Rattle.std.specs.Prelude.{◌≡◌, ◌++◌, codes, OnOk};
ghost use Rattle.std.specs.Io.{StartsWith};
ghost use Rattle.std.specs.List.{flat_map};
ghost use Rattle.vn_types.specs.Paths.{path_text};
ghost use Rattle.vn_cells.specs.texts.Text.{entry_line, line, section_text};

use crate::put::put;
use crate::transcript::put_entry;
use vn_cells::{Entry, SectionText};
use vn_types::{NoMemory, Path, write_path};

/// Puts a path's transcript at the end of the output, and nothing where it is empty.
#[tactic(auto, using(crate::proofs::Putting::section_put))]
pub(crate) fn put_section(section: &SectionText, out: &mut Vec<u8>) -> Result<(), NoMemory>
    ensures put { OnOk result (out.new.items
        ≡ out.old.items ++ section_text section.now.path section.now.entries) }
    ensures front { StartsWith out.new.items out.old.items }
{
    if section.entries.is_empty() {
        return Ok(());
    }
    put_heading(&section.path, out)?;
    put_entries(section.entries.as_slice(), out)
}

fn put_heading(path: &Path, out: &mut Vec<u8>) -> Result<(), NoMemory>
    ensures put { OnOk result (out.new.items
        ≡ out.old.items ++ line (codes "== " ++ path_text path.now)) }
    ensures front { StartsWith out.new.items out.old.items }
{
    put(b"== ", out)?;
    write_path(path, out)?;
    put(b"\n", out)
}

/// The lines of entries, in their order.
fn put_entries(entries: &[Entry], out: &mut Vec<u8>) -> Result<(), NoMemory>
    ensures put { OnOk result (out.new.items ≡ out.old.items ++ flat_map entry_line entries.now) }
    ensures front { StartsWith out.new.items out.old.items }
{
    for entry in entries {
        put_entry(entry, out)?;
    }
    Ok(())
}
