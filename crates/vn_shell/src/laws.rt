ghost use Rattle.vn_shell.specs.Histories.{IsHistoryReadBack};
ghost use Rattle.vn_shell.specs.Readings.{IsReadBack};

/// The one canonical spelling of each command that can be given reads as that command.
pub fn law_of_written_commands()
    ensures { IsReadBack }
{}

/// The text of each history whose events can happen reads as that history: a history has one canonical text.
pub fn law_of_written_histories()
    ensures { IsHistoryReadBack }
{}
