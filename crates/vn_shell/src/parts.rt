//! The parts of a script, as they are read line by line.

ghost use Rattle.std.specs.Prelude.{◌≡◌, ◌++◌, ◌∷◌, [], IfOk};
ghost use Rattle.vn_shell.specs.Readings.{ended, ended_by, with_item};

use crate::item::Item;
use std::alloc::Global;
use vn_cells::{LaneLine, Part};
use vn_types::{List, NoMemory};

/// The parts that have ended, and the lines of the phase that has not.
#[derive(Drop)]
pub(crate) struct Parts {
    parts: List<Part>,
    lines: List<LaneLine>,
}

impl Parts {
    pub(crate) fn new(alloc: Global) -> Parts
        ensures { result ≡ record { parts = []; lines = [] } }
    {
        Parts {
            parts: List::new(alloc),
            lines: List::new(alloc),
        }
    }

    /// These and what one more line means.
    #[tactic(auto, unfolding(crate::specs::Readings::with_item))]
    pub(crate) fn with(self, item: Item) -> Result<Parts, NoMemory>
        ensures { IfOk result (λ r. r ≡ with_item self item) }
    {
        match item {
            Item::Lane(line) => self.with_line(line),
            Item::Phase => self.with_end(),
            Item::Settle => self.with_part(Part::Settle),
            Item::Sleep(milliseconds) => self.with_part(Part::Sleep(milliseconds)),
        }
    }

    fn with_line(self, line: LaneLine) -> Result<Parts, NoMemory>
        ensures { IfOk result (λ r.
            r ≡ record { parts = self.parts; lines = self.lines ++ line ∷ [] }) }
    {
        let Parts { parts, mut lines } = self;
        lines.push(line)?;
        Ok(Parts { parts, lines })
    }

    /// The phase ends.
    fn with_end(self) -> Result<Parts, NoMemory>
        ensures { IfOk result (λ r. r ≡ record { parts = ended self; lines = [] }) }
    {
        let parts = self.finish()?;
        let lines = List::new(parts.allocator());
        Ok(Parts { parts, lines })
    }

    /// The phase ends, and another part stands behind it.
    fn with_part(self, part: Part) -> Result<Parts, NoMemory>
        ensures { IfOk result (λ r. r ≡ ended_by self part) }
    {
        let mut parts = self.finish()?;
        parts.push(part)?;
        let lines = List::new(parts.allocator());
        Ok(Parts { parts, lines })
    }

    /// All parts, where no line follows.
    #[tactic(auto, using(crate::proofs::Scripts::none_ended, crate::proofs::Scripts::some_ended))]
    pub(crate) fn finish(self) -> Result<List<Part>, NoMemory>
        ensures { IfOk result (λ ps. ps ≡ ended self) }
    {
        let Parts { mut parts, lines } = self;
        if lines.is_empty() {
            return Ok(parts);
        }
        parts.push(Part::Phase(lines))?;
        Ok(parts)
    }
}
