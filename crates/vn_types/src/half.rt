use crate::interface::Side;
use crate::path::Path;

/// A half of an epair, by its home, its unit and its side.
#[derive(PartialEq, Eq, Drop)]
pub struct Half {
    pub home: Path,
    pub unit: u32,
    pub side: Side,
}
