//! Sets of cells, as a user names them.

ghost use Rattle.std.specs.Prelude.{◌≡◌, ◌==◌, nat_eq, IfOk};
ghost use Rattle.std.specs.List.{list_any};
ghost use Rattle.vn_types.specs.Paths.{path_eq};
ghost use Rattle.vn_shell.specs.Cells.{cell_item_of, cells_of, host_pair_of, is_small, no_cells, with_item, with_once, with_text};

use std::alloc::Global;
use vn_cells::Cells;
use vn_types::{List, NoMemory, Path, cut, read_number, read_path};

/// The most cells that a set names.
const MOST_CELLS: usize = 64;

/// What one item names.
#[derive(Drop)]
enum CellItem {
    /// The stack of a path, with the pairs that are homed there.
    Stack(Path),
    /// A pair of host, by its unit.
    Pair(u32),
}

/// Reads a set of cells: 1 to 64 items with commas between, each a path or `host/N`, a pair of host by
/// its unit. An item that is repeated counts once. Tells none for any other word.
pub fn read_cells(alloc: Global, word: &[u8]) -> Result<Option<Cells>, NoMemory>
    ensures { IfOk result (λ r. r ≡ cells_of word.now) }
{
    let mut set = no_cells(alloc);
    let mut rest = word;
    while let Some((text, more)) = cut(rest, b',') {
        match with_text(alloc, set, text)? {
            Some(larger) => set = larger,
            None => return Ok(None),
        }
        rest = more;
    }
    with_text(alloc, set, rest)
}

fn no_cells(alloc: Global) -> Cells
    ensures { result ≡ no_cells }
{
    Cells {
        paths: List::new(alloc),
        units: List::new(alloc),
    }
}

/// A set with what a text names, unless it names nothing or the set is full.
#[tactic(auto, unfolding(crate::specs::Cells::with_text))]
fn with_text(alloc: Global, set: Cells, text: &[u8]) -> Result<Option<Cells>, NoMemory>
    ensures { IfOk result (λ r. r ≡ with_text set text.now) }
{
    let Some(item) = read_item(alloc, text)? else {
        return Ok(None);
    };
    let set = with_item(set, item)?;
    if is_small(&set) {
        return Ok(Some(set));
    }
    Ok(None)
}

/// A path, or a pair of host.
#[tactic(auto, unfolding(crate::specs::Cells::cell_item_of))]
fn read_item(alloc: Global, text: &[u8]) -> Result<Option<CellItem>, NoMemory>
    ensures { IfOk result (λ r. r ≡ cell_item_of text.now) }
{
    if let Some(path) = read_path(alloc, text)? {
        return Ok(Some(CellItem::Stack(path)));
    }
    Ok(read_host_pair(text).map(|unit| CellItem::Pair(unit)))
}

/// The unit in `host/N`.
#[tactic(auto, unfolding(crate::specs::Cells::host_pair_of))]
fn read_host_pair(text: &[u8]) -> Option<u32>
    ensures { result ≡ host_pair_of text.now }
{
    let unit = read_number(text.strip_prefix(b"host/")?)?;
    if unit <= 4_294_967_295 {
        return Some(unit as u32);
    }
    None
}

/// A set with an item more.
#[tactic(auto, unfolding(crate::specs::Cells::with_item))]
fn with_item(set: Cells, item: CellItem) -> Result<Cells, NoMemory>
    ensures { IfOk result (λ r. r ≡ with_item set item) }
{
    let Cells { paths, units } = set;
    match item {
        CellItem::Stack(path) => {
            let paths = with_path(paths, path)?;
            Ok(Cells { paths, units })
        }
        CellItem::Pair(unit) => {
            let units = with_unit(units, unit)?;
            Ok(Cells { paths, units })
        }
    }
}

fn with_path(mut paths: List<Path>, path: Path) -> Result<List<Path>, NoMemory>
    ensures { IfOk result (λ r. r ≡ with_once path_eq paths path) }
{
    if has_path(paths.as_slice(), &path) {
        return Ok(paths);
    }
    paths.push(path)?;
    Ok(paths)
}

fn has_path(paths: &[Path], path: &Path) -> bool
    ensures { result ≡ list_any (path_eq path.now) paths.now }
{
    paths.iter().any(|own| path == own)
}

fn with_unit(mut units: List<u32>, unit: u32) -> Result<List<u32>, NoMemory>
    ensures { IfOk result (λ r. r ≡ with_once nat_eq units unit) }
{
    if has_unit(units.as_slice(), unit) {
        return Ok(units);
    }
    units.push(unit)?;
    Ok(units)
}

fn has_unit(units: &[u32], unit: u32) -> bool
    ensures { result ≡ list_any (nat_eq unit) units.now }
{
    units.iter().any(|own| unit == *own)
}

fn is_small(set: &Cells) -> bool
    ensures { result ≡ is_small set.now }
{
    set.paths.len() <= MOST_CELLS && set.units.len() <= MOST_CELLS - set.paths.len()
}
