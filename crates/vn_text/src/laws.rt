ghost use Rattle.std.specs.Prelude.{◌≡◌, List};
ghost use Rattle.vn_cells.specs.declared.event.Event.{Event as AnyEvent};
ghost use Rattle.vn_cells.specs.texts.Reports.{report_of};
ghost use Rattle.vn_cells.specs.texts.Text.{text};
ghost use Rattle.vn_text.specs.Whole.{report_text};

/// The report of a history, written, is the text of the history's run.
pub fn law_of_reports()
    ensures { (events : List AnyEvent) → report_text (report_of events) ≡ text events }
{}
