ghost use Rattle.std.specs.Prelude.{◌≡◌, ◌++◌, OnErr, OnOk};
ghost use Rattle.std.specs.List.{flat_map};
ghost use Rattle.vnetsh.specs.Lines.{reason_text, status_code, status_line};

use itoa::Buffer;
use vn_shell::Reason;
use vn_types::{NoMemory, put_all};

/// The line of a faulty command line.
const USAGE: &[u8] = b"usage: vnetsh run|threads|replay|project CELLS|gen N\n";

/// How a call of the program ended.
#[derive(Drop)]
pub enum Status {
    /// The whole input was read and the whole output written.
    Done,
    /// The words of the command line are outside the forms.
    Usage,
    /// The first line of the script that is refused, counted from 1, and why.
    Script { line: u64, reason: Reason },
    /// A read failed.
    ReadFault,
    /// A write failed. What was written is the beginning of the output.
    WriteFault,
    /// Want of memory.
    NoMemory,
    /// The input has more than 4,194,304 octets.
    TooLong,
    /// The run has more than 200,000 events.
    Long,
}

impl Status {
    /// The exit status.
    pub fn code(&self) -> u8
        ensures { result ≡ status_code self.now }
    {
        match self {
            Status::Done => 0,
            Status::Usage => 1,
            Status::Script { .. } => 2,
            Status::ReadFault => 3,
            Status::WriteFault => 4,
            Status::NoMemory => 5,
            Status::TooLong => 6,
            Status::Long => 7,
        }
    }

    /// Puts the status line and its end at the end of the output; nothing for `Done`.
    pub fn write_line(&self, out: &mut Vec<u8>) -> Result<(), NoMemory>
        ensures written { OnOk result (out.new.items ≡ out.old.items ++ status_line self.now) }
        ensures kept { OnErr result (out.new.items ≡ out.old.items) }
    {
        let mut digits = Buffer::new();
        put_all(&self.pieces(&mut digits), out)
    }

    /// The pieces of the status line and its end, in a row. The line's number is written to
    /// `digits`.
    pub(crate) fn pieces<'a>(&self, digits: &'a mut Buffer) -> [&'a [u8]; 5]
        ensures { flat_map (λ piece. piece.now) result ≡ status_line self.now }
    {
        let empty: &'a [u8] = b"";
        let text: &'a [u8] = match self {
            Status::Script { line, reason } => {
                let front: &'a [u8] = b"script: line ";
                let number: &'a [u8] = digits.format(*line).as_bytes();
                let between: &'a [u8] = b": ";
                let name: &'a [u8] = reason_name(reason).as_bytes();
                let end: &'a [u8] = b"\n";
                return [front, number, between, name, end];
            }
            Status::Done => b"",
            Status::Usage => USAGE,
            Status::ReadFault => b"read fault\n",
            Status::WriteFault => b"write fault\n",
            Status::NoMemory => b"out of memory\n",
            Status::TooLong => b"input too long\n",
            Status::Long => b"too many events\n",
        };
        [text, empty, empty, empty, empty]
    }
}

fn reason_name(reason: &Reason) -> &'static str
    ensures { result.now ≡ reason_text reason.now }
{
    use vn_shell::Reason::{Command, Depth, Lane, Path, Text};
    match reason {
        Text => "text",
        Lane => "lane",
        Path => "path",
        Command => "command",
        Depth => "depth",
    }
}
