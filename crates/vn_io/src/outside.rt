ghost use Rattle.std.specs.Prelude.{◌≡◌, ℕ, ◌<◌, ◌≤◌, List, Option, length, take};
ghost use Rattle.std.specs.Io.KnownBytes.{Appends, Consumes, IsAtEnd, Keeps};
ghost use Rattle.vn_io.specs.Answers.{IfCount, OnCount, OnFailed};
ghost use Rattle.vn_io.specs.Counts.{RoseByOne, Stayed};

/// What a read or a write answers.
#[derive(Drop)]
pub enum Io {
    /// So many octets moved: the first ones of the slice.
    Count(usize),
    /// Nothing moved.
    Failed,
}

/// Where octets come from, as by read(2). A source may tell the octets that it has left; what is
/// said of octets holds where they are told.
pub trait Source {
    // The octets that reads will give from here on, where they are told.
    ghost left: { Self → Option (List ℕ) };

    // The failures so far.
    ghost faults: { Self → ℕ };

    /// Moves the next octets into the front of a buffer. What stands behind them there is not said.
    fn read(&mut self, into: &mut [u8]) -> Io
        ensures within { IfCount result (λ n. n ≤ length into.new) }
        ensures octets { IfCount result (λ n.
            Consumes (left self.old) (left self.new) (take n into.new)) }
        ensures end { IfCount result (λ n.
            n ≡ 0 → 0 < length into.new → IsAtEnd (left self.new)) }
        ensures counted { OnCount result (Stayed (faults self.old) (faults self.new)) }

        ensures none { OnFailed result (Keeps (left self.old) (left self.new)) }
        ensures cause { OnFailed result (RoseByOne (faults self.old) (faults self.new)) }
        ensures never_falls { faults self.old ≤ faults self.new };

    /// The failures so far. A count at its last value stays there.
    fn faults(&self) -> u64
        ensures { result ≡ faults self.now };
}

/// Where octets go, as by write(2). A sink may tell the octets that were written to it; what is
/// said of octets holds where they are told.
pub trait Sink {
    // The octets that were written so far, where they are told.
    ghost written: { Self → Option (List ℕ) };

    // The failures so far.
    ghost faults: { Self → ℕ };

    /// Takes octets from the front of a piece.
    fn write(&mut self, from: &[u8]) -> Io
        ensures within { IfCount result (λ n. n ≤ length from.now) }
        ensures octets { IfCount result (λ n.
            Appends (written self.old) (written self.new) (take n from.now)) }
        ensures some { IfCount result (λ n. 0 < length from.now → 0 < n) }
        ensures counted { OnCount result (Stayed (faults self.old) (faults self.new)) }

        ensures none { OnFailed result (Keeps (written self.old) (written self.new)) }
        ensures cause { OnFailed result (RoseByOne (faults self.old) (faults self.new)) }
        ensures never_falls { faults self.old ≤ faults self.new };

    /// The failures so far. A count at its last value stays there.
    fn faults(&self) -> u64
        ensures { result ≡ faults self.now };
}
