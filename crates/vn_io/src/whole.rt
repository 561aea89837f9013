ghost use Rattle.std.specs.Prelude.{◌≡◌, ◌+◌, ◌<◌, ◌≤◌, IfOk, IfSome, IsErrOf, OnErr, OnOk, length, vec_len};
ghost use Rattle.std.specs.Io.KnownBytes.{Appends, IsAtEnd};
ghost use Rattle.vn_io.specs.Counts.{RoseByOne, Stayed};
ghost use Rattle.vn_io.specs.Transfers.{AppendsPart, ConsumesAtMost, ConsumesExactly};

use crate::outside::{Io, Sink, Source};
use std::alloc::Global;

/// The most octets of one read.
const PIECE: usize = 4096;

/// Why a source was not read to its end.
#[derive(Drop)]
pub enum ReadError {
    /// A read failed.
    Failed,
    /// The source has more octets than the limit.
    TooLong,
    /// Want of memory, and nothing else.
    NoMemory,
}

/// All that a source has left, if that is at most the limit. It takes at most one octet more.
pub fn read_to_end<S: Source>(
    alloc: Global,
    source: &mut S,
    limit: usize,
) -> Result<Vec<u8>, ReadError>
    ensures whole { IfOk result (λ octets.
        IfSome (S.left source.old) (λ all. octets.items ≡ all)) }
    ensures end { OnOk result (IsAtEnd (S.left source.new)) }
    ensures within { IfOk result (λ octets. vec_len octets ≤ limit) }

    ensures too_long { IsErrOf result ReadError.TooLong
        → IfSome (S.left source.old) (λ all. limit < length all) }
    ensures stops { IsErrOf result ReadError.TooLong
        → ConsumesExactly (S.left source.old) (S.left source.new) (limit + 1) }
    ensures failed { IsErrOf result ReadError.Failed
        → RoseByOne (S.faults source.old) (S.faults source.new) }

    ensures counted { ¬ IsErrOf result ReadError.Failed
        → Stayed (S.faults source.old) (S.faults source.new) }
    ensures bounded { ConsumesAtMost (S.left source.old) (S.left source.new) (limit + 1) }
    ensures never_falls { S.faults source.old ≤ S.faults source.new }
{
    let mut octets = Vec::new(alloc);
    let mut buffer = [0u8; PIECE];
    while octets.len() <= limit {
        let room = (limit - octets.len()).min(PIECE - 1) + 1;
        match source.read(&mut buffer[..room]) {
            Io::Failed => return Err(ReadError::Failed),
            Io::Count(0) => return Ok(octets),
            Io::Count(taken) => {
                if octets.extend_from_slice(&buffer[..taken]).is_err() {
                    return Err(ReadError::NoMemory);
                }
            }
        }
    }
    Err(ReadError::TooLong)
}

/// A write failed, perhaps after others.
#[derive(Drop)]
pub struct WriteError;

/// Writes all octets, in whatever pieces the sink takes.
pub fn write_all<K: Sink>(sink: &mut K, octets: &[u8]) -> Result<(), WriteError>
    ensures ok { OnOk result (Appends (K.written sink.old) (K.written sink.new) octets.now) }
    ensures part { OnErr result (AppendsPart (K.written sink.old) (K.written sink.new) octets.now) }
    ensures failed { OnErr result (RoseByOne (K.faults sink.old) (K.faults sink.new)) }
    ensures counted { OnOk result (Stayed (K.faults sink.old) (K.faults sink.new)) }
    ensures never_falls { K.faults sink.old ≤ K.faults sink.new }
{
    let mut done = 0;
    while done < octets.len() {
        match sink.write(&octets[done..]) {
            Io::Failed => return Err(WriteError),
            Io::Count(taken) => done += taken,
        }
    }
    Ok(())
}
