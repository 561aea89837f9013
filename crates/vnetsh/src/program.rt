ghost use Rattle.std.specs.Prelude.{◌≡◌, ◌≢◌, ◌↔◌, ◌≤◌, ◌+◌, OnErr, OnOk};
ghost use Rattle.std.specs.Io.KnownBytes.{Appends, IsAtEnd};
ghost use Rattle.std.specs.List.{flat_map};
ghost use Rattle.std.specs.Process.{exit_status};
ghost use Rattle.vn_io.specs.Counts.{RoseByOne, Stayed};
ghost use Rattle.vn_io.specs.Transfers.{AppendsPart, ConsumesAtMost, ConsumesExactly};
ghost use Rattle.vnetsh.specs.Endings.{EndsWith, Says, TellsLine};
ghost use Rattle.vnetsh.specs.Inputs.{IsDecided, input_max};
ghost use Rattle.vnetsh.specs.Lines.{status_code, status_line};
ghost use Rattle.vnetsh.specs.Words.{IsInside, IsOutside};
ghost use Rattle.vnetsh.specs.declared.status.Status.{Status as AnyStatus};

use crate::calls::top;
use crate::status::Status;
use itoa::Buffer;
use std::alloc::Global;
use std::io;
use std::io::ErrorKind;
use std::process::ExitCode;
use vn_io::{Sink, Source, WriteError, write_all};

/// The program between its ends: the words of the command line, of which the first is its name, an
/// input, an output, and where the status line goes.
pub fn program<S: Source, K: Sink, E: Sink>(
    alloc: Global,
    words: io::Result<Vec<String>>,
    source: &mut S,
    sink: &mut K,
    errors: &mut E,
) -> ExitCode
    // The exit status and the line are those of one status, and what it says is so.
    ensures ended { (status : AnyStatus) × EndsWith status (exit_status result)
        (S.left source.old) (K.written sink.old) (K.written sink.new)
        (record { known = E.written errors.old; faults = E.faults errors.old })
        (record { known = E.written errors.new; faults = E.faults errors.new }) }
    ensures silent { exit_status result ≡ status_code Status.Done → errors.new ≡ errors.old }

    ensures usage { (exit_status result ≡ status_code Status.Usage) ↔ IsOutside words }
    ensures unread { exit_status result ≡ status_code Status.Usage → source.new ≡ source.old }
    ensures whole { exit_status result ≡ status_code Status.Done → IsAtEnd (S.left source.new) }
    ensures stops { exit_status result ≡ status_code Status.TooLong
        → ConsumesExactly (S.left source.old) (S.left source.new) (input_max + 1) }
    ensures bounded { ConsumesAtMost (S.left source.old) (S.left source.new) (input_max + 1) }
    ensures read_fault { exit_status result ≡ status_code Status.ReadFault
        → RoseByOne (S.faults source.old) (S.faults source.new) }
    ensures reads_counted { exit_status result ≢ status_code Status.ReadFault
        → Stayed (S.faults source.old) (S.faults source.new) }
    ensures write_fault { exit_status result ≡ status_code Status.WriteFault
        → RoseByOne (K.faults sink.old) (K.faults sink.new) }
    ensures writes_counted { exit_status result ≢ status_code Status.WriteFault
        → Stayed (K.faults sink.old) (K.faults sink.new) }

    // Where nothing fails, the input decides the exit status, unless memory is wanting.
    ensures complete { IsInside words
        → ¬ RoseByOne (S.faults source.old) (S.faults source.new)
        → ¬ RoseByOne (K.faults sink.old) (K.faults sink.new)
        → (status : AnyStatus) × IsDecided (S.left source.old) status
        × (exit_status result ≡ status_code status) }
{
    let status = run_words(alloc, words, source, sink);
    tell(&status, errors);
    ExitCode::from(status.code())
}

/// Words that are no text are outside the forms.
fn run_words<S: Source, K: Sink>(
    alloc: Global,
    words: io::Result<Vec<String>>,
    source: &mut S,
    sink: &mut K,
) -> Status
    ensures says { Says result (S.left source.old) (K.written sink.old) (K.written sink.new) }
    ensures usage { (result ≡ Status.Usage) ↔ IsOutside words }
    ensures unread { result ≡ Status.Usage → source.new ≡ source.old }
    ensures whole { result ≡ Status.Done → IsAtEnd (S.left source.new) }
    ensures stops { result ≡ Status.TooLong
        → ConsumesExactly (S.left source.old) (S.left source.new) (input_max + 1) }
    ensures bounded { ConsumesAtMost (S.left source.old) (S.left source.new) (input_max + 1) }
    ensures read_fault { result ≡ Status.ReadFault
        → RoseByOne (S.faults source.old) (S.faults source.new) }
    ensures reads_counted { result ≢ Status.ReadFault
        → Stayed (S.faults source.old) (S.faults source.new) }
    ensures write_fault { result ≡ Status.WriteFault
        → RoseByOne (K.faults sink.old) (K.faults sink.new) }
    ensures writes_counted { result ≢ Status.WriteFault
        → Stayed (K.faults sink.old) (K.faults sink.new) }
    ensures complete { IsInside words
        → ¬ RoseByOne (S.faults source.old) (S.faults source.new)
        → ¬ RoseByOne (K.faults sink.old) (K.faults sink.new)
        → IsDecided (S.left source.old) result }
{
    match words {
        Ok(words) => match words.as_slice() {
            [_, words @ ..] => top(alloc, words, source, sink),
            [] => Status::Usage,
        },
        Err(error) if error.kind() == ErrorKind::OutOfMemory => Status::NoMemory,
        Err(_) => Status::Usage,
    }
}

/// Writes the status line, which takes no memory. Where it can't be written, it has no better place
/// to go to.
fn tell<E: Sink>(status: &Status, errors: &mut E)
    ensures told { TellsLine (status_line status.now)
        (record { known = E.written errors.old; faults = E.faults errors.old })
        (record { known = E.written errors.new; faults = E.faults errors.new }) }
    ensures silent { status.now ≡ Status.Done → errors.new ≡ errors.old }
{
    if let Status::Done = status {
        return;
    }
    let mut digits = Buffer::new();
    let _ = write_pieces(&status.pieces(&mut digits), errors);
}

/// Writes texts in a row, up to the first write that fails.
fn write_pieces<E: Sink>(pieces: &[&[u8]], errors: &mut E) -> Result<(), WriteError>
    ensures ok { OnOk result (Appends (E.written errors.old) (E.written errors.new)
        (flat_map (λ piece. piece.now) pieces.now)) }
    ensures counted { OnOk result (Stayed (E.faults errors.old) (E.faults errors.new)) }
    ensures part { OnErr result (AppendsPart (E.written errors.old) (E.written errors.new)
        (flat_map (λ piece. piece.now) pieces.now)) }
    ensures failed { OnErr result (RoseByOne (E.faults errors.old) (E.faults errors.new)) }
{
    for piece in pieces {
        write_all(errors, piece)?;
    }
    Ok(())
}
