ghost use Rattle.std.specs.Prelude.{◌≡◌, IfOk};
ghost use Rattle.std.specs.List.{list_all};
ghost use Rattle.vn_cells.specs.machine.Events.{is_built_line, is_valid_asked, is_valid_line, is_valid_part, is_valid_script};

use crate::bounds::is_wait;
use crate::command::Command;
use crate::event::is_at_path;
use crate::listing::Table;
use vn_types::{List, NoMemory, Path};

/// What a line of a lane asks for.
#[derive(Drop)]
pub enum Line {
    Cmd(Command),
    /// A whole table, line by line.
    List(Table),
    /// A reader of a table.
    Open(Table),
    /// The next line of the lane's reader.
    Next,
    /// The end of the lane's reader.
    Close,
    /// A look at the board of interface tables.
    Watch,
}

/// A line of a lane (1 to 8), run at a path.
#[derive(Drop)]
pub struct LaneLine {
    pub lane: u8,
    pub path: Path,
    pub line: Line,
}

/// A part of a script.
#[derive(Drop)]
pub enum Part {
    /// Lines of the lanes, in script order.
    Phase(List<LaneLine>),
    /// All that is queued is delivered.
    Settle,
    /// The clock moves on by so many milliseconds, with all that happens meanwhile.
    Sleep(u64),
}

/// A script, part by part.
#[derive(Drop)]
pub struct Script {
    pub parts: List<Part>,
}

impl Line {
    /// Whether the line can be asked for at a path.
    #[tactic(auto, unfolding(crate::specs::machine::Events::is_valid_asked))]
    fn is_valid(&self, path: &Path) -> bool
        ensures { result ≡ is_valid_asked path.now self.now }
    {
        match self {
            Line::Cmd(command) => command.is_valid(path),
            Line::List(_) | Line::Open(_) | Line::Next | Line::Close | Line::Watch => true,
        }
    }

    /// Whether the program runs it so far.
    #[tactic(auto, unfolding(crate::specs::machine::Events::is_built_line))]
    pub fn is_built(&self) -> bool
        ensures { result ≡ is_built_line self.now }
    {
        match self {
            Line::Cmd(command) => command.is_built(),
            _ => false,
        }
    }

    fn copy(&self) -> Result<Line, NoMemory>
        ensures { IfOk result (λ l. l ≡ self.now) }
    {
        Ok(match self {
            Line::Cmd(command) => Line::Cmd(command.copy()?),
            Line::List(table) => Line::List(*table),
            Line::Open(table) => Line::Open(*table),
            Line::Next => Line::Next,
            Line::Close => Line::Close,
            Line::Watch => Line::Watch,
        })
    }
}

impl LaneLine {
    /// Whether its events can happen.
    #[tactic(auto, unfolding(crate::specs::machine::Events::is_valid_line))]
    pub fn is_valid(&self) -> bool
        ensures { result ≡ is_valid_line self.now }
    {
        is_at_path(self.lane, &self.path) && self.line.is_valid(&self.path)
    }

    fn copy(&self) -> Result<LaneLine, NoMemory>
        ensures { IfOk result (λ l. l ≡ self.now) }
    {
        let path = self.path.copy()?;
        let line = self.line.copy()?;
        Ok(LaneLine {
            lane: self.lane,
            path,
            line,
        })
    }
}

fn copy_lines(lines: &List<LaneLine>) -> Result<List<LaneLine>, NoMemory>
    ensures { IfOk result (λ l. l ≡ lines.now) }
{
    let mut copies = List::new(lines.allocator());
    for line in lines.as_slice() {
        let copy = line.copy()?;
        copies.push(copy)?;
    }
    Ok(copies)
}

fn are_valid(lines: &[LaneLine]) -> bool
    ensures { result ≡ list_all is_valid_line lines.now }
{
    lines.iter().all(|line| line.is_valid())
}

impl Part {
    /// Whether its events can happen.
    #[tactic(auto, unfolding(crate::specs::machine::Events::is_valid_part))]
    pub fn is_valid(&self) -> bool
        ensures { result ≡ is_valid_part self.now }
    {
        match self {
            Part::Phase(lines) => are_valid(lines.as_slice()),
            Part::Settle => true,
            Part::Sleep(milliseconds) => is_wait(*milliseconds),
        }
    }

    fn copy(&self) -> Result<Part, NoMemory>
        ensures { IfOk result (λ p. p ≡ self.now) }
    {
        Ok(match self {
            Part::Phase(lines) => Part::Phase(copy_lines(lines)?),
            Part::Settle => Part::Settle,
            Part::Sleep(milliseconds) => Part::Sleep(*milliseconds),
        })
    }
}

impl Script {
    /// Whether its events can happen.
    pub fn is_valid(&self) -> bool
        ensures { result ≡ is_valid_script self.now }
    {
        self.parts.as_slice().iter().all(|part| part.is_valid())
    }

    /// The same script once more.
    pub fn copy(&self) -> Result<Script, NoMemory>
        ensures { IfOk result (λ s. s ≡ self.now) }
    {
        let mut parts = List::new(self.parts.allocator());
        for part in self.parts.as_slice() {
            let copy = part.copy()?;
            parts.push(copy)?;
        }
        Ok(Script { parts })
    }
}
