use crate::transcript::Entry;
use bytes::Bytes;
use vn_rules::PartsOf;
use vn_types::{Half, List, Mac, Octets, Path};

/// A lane's open reader of a table, with the lines left to it.
pub struct Reader {
    pub lane: u8,
    pub lines: List<Octets>,
}

/// The limit on a jail's living descendants, and their number (jail(8), `children.max` and `children.cur`).
#[derive(Clone, Copy)]
pub struct Children {
    pub limit: u32,
    pub living: u32,
}

/// What a living stack has. Host keeps no limit and no number of descendants.
pub struct Live {
    pub children: Option<Children>,
    pub parts: PartsOf<Half>,
}

/// The stack of a path: its transcript and its readers stay when it is destroyed.
pub struct Stack {
    pub entries: List<Entry>,
    pub readers: List<Reader>,
    pub live: Option<Live>,
}

/// One side of a pair: the path where the half stands, its hardware address, and the frames that it sent
/// and that still wait, oldest first.
pub struct End {
    pub at: Path,
    pub mac: Mac,
    pub up: bool,
    pub sent: List<Bytes>,
}

/// A pair of halves (epair(4)).
pub struct Pair {
    pub a: End,
    pub b: End,
}

/// The state of the machine, for contracts to speak of: no program holds a value of it. Stacks stand in
/// the order of their paths and pairs in the order of their homes and units.
pub struct World {
    /// Milliseconds.
    pub clock: u64,
    pub stacks: List<(Path, Stack)>,
    pub pairs: List<((Path, u32), Pair)>,
}
