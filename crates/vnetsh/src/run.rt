ghost use Rattle.std.specs.Prelude.{◌≡◌, ◌≤◌, ◌∷◌, ◌++◌, [], true, length, replicate, IfOk, OnOk};
ghost use Rattle.std.specs.List.{list_all};
ghost use Rattle.vn_cells.specs.declared.event.Event.TheVariants as event;
ghost use Rattle.vn_cells.specs.declared.script.Line.TheVariants as line;
ghost use Rattle.vn_cells.specs.machine.Events.{
  IsValidEvent,
  is_at_path,
  is_built,
  is_built_line,
  is_valid_line,
  is_valid_part,
  is_valid_script,
};
ghost use Rattle.vn_cells.specs.machine.Step.{run};
ghost use Rattle.vn_cells.specs.texts.Reports.{report_of};
ghost use Rattle.vn_cells.specs.texts.Schedule.{
  line_events,
  lines_events,
  listing_events,
  part_events,
  parts_events,
  serial_run,
};
ghost use Rattle.vn_cells.specs.texts.Text.{text};
ghost use Rattle.vn_shell.specs.Readings.{is_built_lane, is_built_part, is_built_script};
ghost use Rattle.vnetsh.specs.Runs.{Happen, StandsForHistory, TellsLong};

use std::alloc::Global;
use vn_cells::{EVENTS_MAX, Event, LaneLine, Line, Part, Report, Script, Table};
use vn_kernel::{Kernel, StepFault};
use vn_text::{law_of_reports, write_report};
use vn_types::{List, Path};

/// The text of the run of a script.
pub(crate) fn run_text(alloc: Global, script: Script) -> Result<Vec<u8>, StepFault>
    requires valid { is_valid_script script ≡ true }
    requires built { is_built_script script ≡ true }
    ensures ok { IfOk result (λ o. o.items ≡ text (serial_run script)) }
    ensures long { TellsLong result (serial_run script) }
{
    law_of_reports();
    let report = run_script(alloc, script)?;
    let mut text = Vec::new(alloc);
    write_report(&report, &mut text)?;
    Ok(text)
}

/// The report of a run of a script from the opening world.
fn run_script(alloc: Global, script: Script) -> Result<Report, StepFault>
    requires valid { is_valid_script script ≡ true }
    requires built { is_built_script script ≡ true }
    ensures ok { IfOk result (λ r. r ≡ report_of (serial_run script)) }
    ensures long { TellsLong result (serial_run script) }
{
    let mut kernel = Kernel::new(alloc)?;
    run_parts(&mut kernel, script.parts)?;
    let report = kernel.finish()?;
    Ok(report)
}

/// Runs the parts of a script, each in the world that those before it left.
fn run_parts(kernel: &mut Kernel, parts: List<Part>) -> Result<(), StepFault>
    requires valid { list_all is_valid_part parts ≡ true }
    requires built { list_all is_built_part parts ≡ true }
    requires standing { StandsForHistory kernel.old }
    requires room { length kernel.old.events ≤ EVENTS_MAX }
    ensures happened { Happen (parts_events (run kernel.old.events) parts) result
        kernel.old.events kernel.new.events }
    ensures standing { OnOk result (StandsForHistory kernel.new) }
{
    for part in parts.into_vec() {
        run_part(kernel, part)?;
    }
    Ok(())
}

#[tactic(auto, unfolding(vn_cells::specs::texts::Schedule::part_events))]
fn run_part(kernel: &mut Kernel, part: Part) -> Result<(), StepFault>
    requires valid { is_valid_part part ≡ true }
    requires built { is_built_part part ≡ true }
    requires standing { StandsForHistory kernel.old }
    requires room { length kernel.old.events ≤ EVENTS_MAX }
    ensures happened { Happen (part_events (run kernel.old.events) part) result
        kernel.old.events kernel.new.events }
    ensures standing { OnOk result (StandsForHistory kernel.new) }
{
    match part {
        Part::Phase(lines) => run_lines(kernel, lines),
        // No script that is read has such a part yet.
        Part::Settle | Part::Sleep(_) => unreachable!(),
    }
}

/// Runs the lines of a phase in script order, each in the world that those before it left.
fn run_lines(kernel: &mut Kernel, lines: List<LaneLine>) -> Result<(), StepFault>
    requires valid { list_all is_valid_line lines ≡ true }
    requires built { list_all is_built_lane lines ≡ true }
    requires standing { StandsForHistory kernel.old }
    requires room { length kernel.old.events ≤ EVENTS_MAX }
    ensures happened { Happen (lines_events (run kernel.old.events) lines) result
        kernel.old.events kernel.new.events }
    ensures standing { OnOk result (StandsForHistory kernel.new) }
{
    for line in lines.into_vec() {
        run_line(kernel, line)?;
    }
    Ok(())
}

#[tactic(auto, unfolding(vn_cells::specs::texts::Schedule::line_events))]
fn run_line(kernel: &mut Kernel, line: LaneLine) -> Result<(), StepFault>
    requires valid { is_valid_line line ≡ true }
    requires built { is_built_lane line ≡ true }
    requires standing { StandsForHistory kernel.old }
    requires room { length kernel.old.events ≤ EVENTS_MAX }
    ensures happened { Happen (line_events (run kernel.old.events) line) result
        kernel.old.events kernel.new.events }
    ensures standing { OnOk result (StandsForHistory kernel.new) }
{
    let LaneLine { lane, path, line } = line;
    match line {
        Line::Cmd(command) => run_event(
            kernel,
            Event::Cmd {
                lane,
                path,
                command,
            },
        ),
        Line::List(table) => run_listing(kernel, lane, path, table),
        Line::Open(table) => run_event(kernel, Event::Open { lane, path, table }),
        Line::Next => run_event(kernel, Event::Next { lane, path }),
        Line::Close => run_event(kernel, Event::Close { lane, path }),
        // No script that is read has such a line yet.
        Line::Watch => unreachable!(),
    }
}

/// Opens a reader of a table. Where the lane may, it reads each line that was kept, and closes the reader.
#[tactic(auto, unfolding(vn_cells::specs::machine::Events::is_valid_event))]
fn run_listing(kernel: &mut Kernel, lane: u8, path: Path, table: Table) -> Result<(), StepFault>
    requires valid { is_at_path lane path ≡ true }
    requires built { is_built_line (line.List table) ≡ true }
    requires standing { StandsForHistory kernel.old }
    requires room { length kernel.old.events ≤ EVENTS_MAX }
    ensures happened { Happen (listing_events (run kernel.old.events) lane path table) result
        kernel.old.events kernel.new.events }
    ensures standing { OnOk result (StandsForHistory kernel.new) }
{
    let before = kernel.remaining(lane, &path);
    let copy = path.copy()?;
    run_event(
        kernel,
        Event::Open {
            lane,
            path: copy,
            table,
        },
    )?;
    let after = kernel.remaining(lane, &path);
    match (before, after) {
        (None, Some(lines)) => read_lines(kernel, lane, path, lines),
        // The lane may not open a reader where no stack lives, nor a second one.
        (None, None) => Ok(()),
        (Some(_), _) => Ok(()),
    }
}

/// Reads so many lines of a lane's reader, and closes it.
#[tactic(auto, unfolding(vn_cells::specs::machine::Events::is_valid_event))]
fn read_lines(kernel: &mut Kernel, lane: u8, path: Path, lines: u64) -> Result<(), StepFault>
    requires valid { is_at_path lane path ≡ true }
    requires next { is_built (event.Next lane path) ≡ true }
    requires close { is_built (event.Close lane path) ≡ true }
    requires standing { StandsForHistory kernel.old }
    requires room { length kernel.old.events ≤ EVENTS_MAX }
    ensures happened { Happen (replicate lines (event.Next lane path) ++ event.Close lane path ∷ []) result
        kernel.old.events kernel.new.events }
    ensures standing { OnOk result (StandsForHistory kernel.new) }
{
    for _ in 0..lines {
        let copy = path.copy()?;
        run_event(kernel, Event::Next { lane, path: copy })?;
    }
    run_event(kernel, Event::Close { lane, path })
}

/// Lets one event happen.
fn run_event(kernel: &mut Kernel, event: Event) -> Result<(), StepFault>
    requires valid { IsValidEvent event }
    requires built { is_built event ≡ true }
    requires standing { StandsForHistory kernel.old }
    requires room { length kernel.old.events ≤ EVENTS_MAX }
    ensures happened { Happen (event ∷ []) result kernel.old.events kernel.new.events }
    ensures standing { OnOk result (StandsForHistory kernel.new) }
{
    kernel.step(event)
}
