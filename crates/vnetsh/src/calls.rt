ghost use Rattle.std.specs.Prelude.{◌≡◌, ◌≢◌, ◌↔◌, ◌<◌, ◌≤◌, ◌+◌, ℕ, false, true, length, Err, IfSome};
ghost use Rattle.std.specs.Io.KnownBytes.{IsAtEnd};
ghost use Rattle.vn_io.specs.Counts.{RoseByOne, Stayed};
ghost use Rattle.vn_io.specs.Transfers.{ConsumesAtMost, ConsumesExactly};
ghost use Rattle.vn_shell.specs.declared.script.Reason.{Reason as AnyReason};
ghost use Rattle.vn_shell.specs.Grammar.{script_of};
ghost use Rattle.vnetsh.specs.Inputs.{IsDecided, input_max};
ghost use Rattle.vnetsh.specs.Outputs.{IsRunClean, IsRunIsolated, IsRunLong, IsRunShort, WritesPart, WritesRun};
ghost use Rattle.vnetsh.specs.Words.{is_run};

use crate::forms::is_run;
use crate::run::run_text;
use crate::status::Status;
use std::alloc::Global;
use vn_io::{ReadError, Sink, Source, read_to_end, write_all};
use vn_kernel::StepFault;
use vn_laws::{law_of_clean_histories, law_of_isolation};
use vn_shell::{ScriptFault, read_script};

/// The most octets of an input.
const INPUT_MAX: usize = 4_194_304;

/// The whole program over any source and sink. The words are those of the command line.
pub fn top<S: Source, K: Sink>(
    alloc: Global,
    words: &[String],
    source: &mut S,
    sink: &mut K,
) -> Status
    ensures done { result ≡ Status.Done
        → WritesRun (S.left source.old) (K.written sink.old) (K.written sink.new) }
    ensures isolated { result ≡ Status.Done → IsRunIsolated (S.left source.old) }
    ensures clean { result ≡ Status.Done → IsRunClean (S.left source.old) }

    // Each other status by its cause.
    ensures usage { (result ≡ Status.Usage) ↔ (is_run words.now ≡ false) }
    ensures unread { result ≡ Status.Usage → source.new ≡ source.old }
    ensures read_fault { result ≡ Status.ReadFault
        → RoseByOne (S.faults source.old) (S.faults source.new) }
    ensures reads_counted { result ≢ Status.ReadFault
        → Stayed (S.faults source.old) (S.faults source.new) }
    ensures too_long { result ≡ Status.TooLong
        → IfSome (S.left source.old) (λ input. input_max < length input) }
    ensures stops { result ≡ Status.TooLong
        → ConsumesExactly (S.left source.old) (S.left source.new) (input_max + 1) }
    // The other statuses come after the end of an input within the limit.
    ensures within { result ≢ Status.Usage → result ≢ Status.ReadFault → result ≢ Status.TooLong
        → result ≢ Status.NoMemory
        → IfSome (S.left source.old) (λ input. length input ≤ input_max) }
    ensures whole { result ≢ Status.Usage → result ≢ Status.ReadFault → result ≢ Status.TooLong
        → result ≢ Status.NoMemory → IsAtEnd (S.left source.new) }
    ensures script { (number : ℕ) (reason : AnyReason) → result ≡ Status.Script number reason
        → IfSome (S.left source.old) (λ input. script_of input ≡ Err (number, reason)) }
    // The run comes after a script that was read.
    ensures long { result ≡ Status.Long → IsRunLong (S.left source.old) }
    ensures short { result ≢ Status.Usage → result ≢ Status.ReadFault → result ≢ Status.TooLong
        → result ≢ Status.NoMemory → result ≢ Status.Long → IsRunShort (S.left source.old) }
    ensures write_fault { result ≡ Status.WriteFault
        → RoseByOne (K.faults sink.old) (K.faults sink.new) }
    ensures writes_counted { result ≢ Status.WriteFault
        → Stayed (K.faults sink.old) (K.faults sink.new) }
    ensures part { result ≡ Status.WriteFault
        → WritesPart (S.left source.old) (K.written sink.old) (K.written sink.new) }
    ensures unwritten { result ≢ Status.Done → result ≢ Status.WriteFault → sink.new ≡ sink.old }

    // Where nothing fails, the input decides the status, unless memory is wanting.
    ensures complete { is_run words.now ≡ true
        → ¬ RoseByOne (S.faults source.old) (S.faults source.new)
        → ¬ RoseByOne (K.faults sink.old) (K.faults sink.new)
        → IsDecided (S.left source.old) result }

    ensures bounded { ConsumesAtMost (S.left source.old) (S.left source.new) (input_max + 1) }
    ensures reads_never_fall { S.faults source.old ≤ S.faults source.new }
    ensures writes_never_fall { K.faults sink.old ≤ K.faults sink.new }
{
    serial(alloc, words, source, sink)
}

/// Reads a script, runs its lines one after another from the opening world, and writes what the run
/// leaves: the transcript of each stack, and the history. It waits for nobody.
pub fn serial<S: Source, K: Sink>(
    alloc: Global,
    words: &[String],
    source: &mut S,
    sink: &mut K,
) -> Status
    ensures done { result ≡ Status.Done
        → WritesRun (S.left source.old) (K.written sink.old) (K.written sink.new) }
    ensures isolated { result ≡ Status.Done → IsRunIsolated (S.left source.old) }
    ensures clean { result ≡ Status.Done → IsRunClean (S.left source.old) }

    // Each other status by its cause.
    ensures usage { (result ≡ Status.Usage) ↔ (is_run words.now ≡ false) }
    ensures unread { result ≡ Status.Usage → source.new ≡ source.old }
    ensures read_fault { result ≡ Status.ReadFault
        → RoseByOne (S.faults source.old) (S.faults source.new) }
    ensures reads_counted { result ≢ Status.ReadFault
        → Stayed (S.faults source.old) (S.faults source.new) }
    ensures too_long { result ≡ Status.TooLong
        → IfSome (S.left source.old) (λ input. input_max < length input) }
    ensures stops { result ≡ Status.TooLong
        → ConsumesExactly (S.left source.old) (S.left source.new) (input_max + 1) }
    // The other statuses come after the end of an input within the limit.
    ensures within { result ≢ Status.Usage → result ≢ Status.ReadFault → result ≢ Status.TooLong
        → result ≢ Status.NoMemory
        → IfSome (S.left source.old) (λ input. length input ≤ input_max) }
    ensures whole { result ≢ Status.Usage → result ≢ Status.ReadFault → result ≢ Status.TooLong
        → result ≢ Status.NoMemory → IsAtEnd (S.left source.new) }
    ensures script { (number : ℕ) (reason : AnyReason) → result ≡ Status.Script number reason
        → IfSome (S.left source.old) (λ input. script_of input ≡ Err (number, reason)) }
    // The run comes after a script that was read.
    ensures long { result ≡ Status.Long → IsRunLong (S.left source.old) }
    ensures short { result ≢ Status.Usage → result ≢ Status.ReadFault → result ≢ Status.TooLong
        → result ≢ Status.NoMemory → result ≢ Status.Long → IsRunShort (S.left source.old) }
    ensures write_fault { result ≡ Status.WriteFault
        → RoseByOne (K.faults sink.old) (K.faults sink.new) }
    ensures writes_counted { result ≢ Status.WriteFault
        → Stayed (K.faults sink.old) (K.faults sink.new) }
    ensures part { result ≡ Status.WriteFault
        → WritesPart (S.left source.old) (K.written sink.old) (K.written sink.new) }
    ensures unwritten { result ≢ Status.Done → result ≢ Status.WriteFault → sink.new ≡ sink.old }

    // Where nothing fails, the input decides the status, unless memory is wanting.
    ensures complete { is_run words.now ≡ true
        → ¬ RoseByOne (S.faults source.old) (S.faults source.new)
        → ¬ RoseByOne (K.faults sink.old) (K.faults sink.new)
        → IsDecided (S.left source.old) result }

    ensures bounded { ConsumesAtMost (S.left source.old) (S.left source.new) (input_max + 1) }
    ensures reads_never_fall { S.faults source.old ≤ S.faults source.new }
    ensures writes_never_fall { K.faults sink.old ≤ K.faults sink.new }
{
    law_of_isolation();
    law_of_clean_histories();
    if !is_run(words) {
        return Status::Usage;
    }
    let input = match read_to_end(alloc, source, INPUT_MAX) {
        Ok(input) => input,
        Err(ReadError::Failed) => return Status::ReadFault,
        Err(ReadError::TooLong) => return Status::TooLong,
        Err(ReadError::NoMemory) => return Status::NoMemory,
    };
    let script = match read_script(alloc, &input) {
        Ok(script) => script,
        Err(ScriptFault::Script { line, reason }) => return Status::Script { line, reason },
        Err(ScriptFault::NoMemory) => return Status::NoMemory,
    };
    drop(input);
    let text = match run_text(alloc, script) {
        Ok(text) => text,
        Err(StepFault::Long(_)) => return Status::Long,
        Err(StepFault::NoMemory) => return Status::NoMemory,
    };
    match write_all(sink, &text) {
        Ok(()) => Status::Done,
        Err(_) => Status::WriteFault,
    }
}
