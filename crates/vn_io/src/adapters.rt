ghost use Rattle.std.specs.Prelude.{◌≡◌, ◌<◌, ◌≤◌, length, take};
ghost use Rattle.std.specs.Io.KnownBytes.{Appends, Keeps};
ghost use Rattle.vn_io.specs.Answers.{IfCount, OnCount, OnFailed};
ghost use Rattle.vn_io.specs.Counts.{RoseByOne, Stayed};

use crate::failures::failed;
use crate::outside::{Io, Sink, Source};
use std::io::{Read, Write};

/// A reader or a writer of std, as a file, a pipe or a terminal, with the count of its failures. It tells the
/// octets that std knows of it; of a file, a pipe or a terminal std knows none.
#[derive(Drop)]
pub struct Counted<T> {
    inner: T,
    faults: u64,
}

/// A reader as a source.
pub type ReadSource<R> = Counted<R>;

/// A writer as a sink.
pub type WriteSink<W> = Counted<W>;

impl<T> Counted<T> {
    /// A reader or a writer that has not failed yet.
    pub fn new(inner: T) -> Counted<T>
        ensures { result ≡ record { inner = inner; faults = 0 } }
    {
        Counted { inner, faults: 0 }
    }
}

impl<R: Read> Source for Counted<R> {
    ghost left = { λ s. R.remaining s.inner };

    ghost faults = { λ s. s.faults };

    fn read(&mut self, into: &mut [u8]) -> Io {
        match self.inner.read(into) {
            Ok(count) => Io::Count(count),
            Err(_) => failed(&mut self.faults),
        }
    }

    fn faults(&self) -> u64 {
        self.faults
    }
}

impl<W: Write> Sink for Counted<W> {
    ghost written = { λ s. W.contents s.inner };

    ghost faults = { λ s. s.faults };

    fn write(&mut self, from: &[u8]) -> Io
        ensures within { IfCount result (λ n. n ≤ length from.now) }
        ensures octets { IfCount result (λ n.
            Appends (W.contents self.old.inner) (W.contents self.new.inner) (take n from.now)) }
        ensures some { IfCount result (λ n. 0 < length from.now → 0 < n) }
        ensures counted { OnCount result (Stayed self.old.faults self.new.faults) }
        // The writer is not called for an empty piece.
        ensures empty { length from.now ≡ 0 → result ≡ Io.Count 0 }
        ensures unused { length from.now ≡ 0 → self.new ≡ self.old }

        ensures none { OnFailed result (Keeps (W.contents self.old.inner) (W.contents self.new.inner)) }
        ensures cause { OnFailed result (RoseByOne self.old.faults self.new.faults) }
        ensures never_falls { self.old.faults ≤ self.new.faults }
    {
        if from.is_empty() {
            return Io::Count(0);
        }
        match self.inner.write(from) {
            // std may take nothing of a piece, and would then be asked for ever.
            Ok(0) | Err(_) => failed(&mut self.faults),
            Ok(count) => Io::Count(count),
        }
    }

    fn faults(&self) -> u64 {
        self.faults
    }
}
