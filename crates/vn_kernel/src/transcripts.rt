ghost use Rattle.std.specs.Prelude.{◌≡◌, ◌∷◌, [], map, IfOk, OnOk};
ghost use Rattle.std.specs.List.{filter};
ghost use Rattle.vn_cells.specs.texts.Reports.{has_entry};
ghost use Rattle.vn_kernel.specs.Worlds.{logged, section_by};

use std::alloc::Global;
use std::collections::BTreeMap;
use vn_cells::{Entry, SectionText};
use vn_types::{List, NoMemory, Path};

/// The transcripts by path, in the order of the paths.
pub(crate) type Transcripts = BTreeMap<Path, List<Entry>>;

/// Adds an entry to the transcript of a path.
pub(crate) fn note(
    alloc: Global,
    logs: &mut Transcripts,
    path: &Path,
    entry: Entry,
) -> Result<(), NoMemory>
    ensures { OnOk result (logs.new.entries ≡ logged path.now (entry ∷ []) logs.old.entries) }
{
    if let Some(entries) = logs.get_mut(path) {
        return entries.push(entry);
    }
    let mut entries = List::with_capacity(alloc, 1)?;
    entries.push(entry)?;
    let path = path.copy()?;
    logs.insert(path, entries)?;
    Ok(())
}

/// The transcripts that are not empty, in the order of their paths.
pub(crate) fn sections_of(alloc: Global, logs: Transcripts) -> Result<List<SectionText>, NoMemory>
    ensures { IfOk result (λ r. r ≡ map section_by (filter (λ log. has_entry log.1) logs.entries)) }
{
    let mut sections = List::with_capacity(alloc, logs.len())?;
    for (path, entries) in logs {
        if !entries.is_empty() {
            sections.push(SectionText { path, entries })?;
        }
    }
    Ok(sections)
}
