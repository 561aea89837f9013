ghost use Rattle.std.specs.Prelude.{◌≡◌, ◌++◌, ◌∷◌, [], ◌&&◌, nat_lt, length, ℕ, List, Some, IfOk, OnOk, OnErr};
ghost use Rattle.vn_types.specs.Paths.{is_path, path_text};
ghost use Rattle.vn_types.specs.PathTexts.{pieces};
ghost use Rattle.vn_types.specs.PathWords.{labels_of, path_of};

use crate::memory::NoMemory;
use crate::path::{Path, count_dots};
use crate::text::{cut, put};
use crate::words::is_label;
use std::alloc::Global;

/// The most labels that a path has.
pub const MOST_LABELS: usize = 8;

/// The path that a text spells: `host`, or 1 to 8 labels with dots between.
pub fn read_path(alloc: Global, text: &[u8]) -> Result<Option<Path>, NoMemory>
    ensures path { IfOk result (λ r. r ≡ path_of text.now) }
    // A path is written as it was read.
    ensures canonical { (p : List (List ℕ)) → path_of text.now ≡ Some p → path_text p ≡ text.now }
{
    if text == b"host".as_slice() {
        return Ok(Some(Path::host(alloc)));
    }
    read_labels(alloc, text)
}

fn read_labels(alloc: Global, text: &[u8]) -> Result<Option<Path>, NoMemory>
    ensures { IfOk result (λ r. r ≡ labels_of text.now) }
{
    if !are_labels(text) {
        return Ok(None);
    }
    let path = Path::spelt(alloc, text)?;
    Ok(Some(path))
}

/// Whether a text is 1 to 8 labels with dots between.
fn are_labels(text: &[u8]) -> bool
    ensures { result ≡ is_path (pieces text.now) }
{
    let mut rest = text;
    while let Some((piece, more)) = cut(rest, b'.') {
        if !is_label(piece) {
            return false;
        }
        rest = more;
    }
    is_label(rest) && count_dots(text) < MOST_LABELS
}

/// Puts a path's text at the end of the output.
pub fn write_path(path: &Path, out: &mut Vec<u8>) -> Result<(), NoMemory>
    ensures written { OnOk result (out.new.items ≡ out.old.items ++ path_text path.now) }
    ensures kept { OnErr result (out.new.items ≡ out.old.items) }
    // What is written is read.
    ensures read_back { path_of (path_text path.now) ≡ Some path.now }
{
    put(path.text(), out)
}
