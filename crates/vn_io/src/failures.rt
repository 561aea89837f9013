ghost use Rattle.std.specs.Prelude.{◌≡◌, ◌≤◌};
ghost use Rattle.vn_io.specs.Counts.{RoseByOne};

use crate::outside::Io;

/// The answer of a call that failed, which is counted.
pub(crate) fn failed(faults: &mut u64) -> Io
    ensures answer { result ≡ Io.Failed }
    ensures cause { RoseByOne faults.old faults.new }
    ensures never_falls { faults.old ≤ faults.new }
{
    *faults = faults.saturating_add(1);
    Io::Failed
}
