ghost use Rattle.std.specs.Prelude.{◌≡◌};
ghost use Rattle.vn_shell.specs.Grammar.{takes_line, takes_breaks};

use vn_cells::Line;

/// Which forms of lines a reader takes.
#[derive(Clone, Copy)]
pub(crate) enum Forms {
    /// All of the grammar.
    All,
    /// Those that the program runs.
    Built,
}

impl Forms {
    /// Whether a reader takes what a lane asks for.
    pub(crate) fn takes_line(self, line: &Line) -> bool
        ensures { result ≡ takes_line self line.now }
    {
        match self {
            Forms::All => true,
            Forms::Built => line.is_built(),
        }
    }

    /// Whether it takes lines between phases.
    pub(crate) fn takes_breaks(self) -> bool
        ensures { result ≡ takes_breaks self }
    {
        match self {
            Forms::All => true,
            Forms::Built => false,
        }
    }
}
