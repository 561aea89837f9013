use vn_types::{List, Path};

/// What stands on its own in the world: the stack of a path, living or not, or a pair by its home and unit.
#[derive(Drop)]
pub enum CellName {
    Stack(Path),
    Pair { home: Path, unit: u32 },
}

/// A set of cells: the stacks of some paths with the pairs that are homed there, and some pairs of host
/// by their units.
#[derive(Drop)]
pub struct Cells {
    pub paths: List<Path>,
    pub units: List<u32>,
}
