ghost use Rattle.std.specs.Prelude.{◌≡◌, ◌++◌, OnOk};
ghost use Rattle.std.specs.Io.{StartsWith};
ghost use Rattle.vn_cells.specs.texts.Programs.{creation_text, limit_text, removal_text};

use crate::put::{put, put_number};
use vn_types::{NoMemory, Path, write_path};

/// A jail is made (jail(8), `-c`).
pub(crate) fn put_creation(
    path: &Path,
    children_max: u32,
    out: &mut Vec<u8>,
) -> Result<(), NoMemory>
    ensures put { OnOk result (out.new.items ≡ out.old.items ++ creation_text path.now children_max) }
    ensures front { StartsWith out.new.items out.old.items }
{
    put(b"jail -c name=", out)?;
    write_path(path, out)?;
    put(b" vnet persist", out)?;
    put_limit(children_max, out)
}

/// A limit of 0 is the default and is not written.
fn put_limit(children_max: u32, out: &mut Vec<u8>) -> Result<(), NoMemory>
    ensures put { OnOk result (out.new.items ≡ out.old.items ++ limit_text children_max) }
    ensures front { StartsWith out.new.items out.old.items }
{
    if children_max == 0 {
        return Ok(());
    }
    put(b" children.max=", out)?;
    put_number(u64::from(children_max), out)
}

/// A jail is removed (jail(8), `-r`).
pub(crate) fn put_removal(path: &Path, out: &mut Vec<u8>) -> Result<(), NoMemory>
    ensures put { OnOk result (out.new.items ≡ out.old.items ++ removal_text path.now) }
    ensures front { StartsWith out.new.items out.old.items }
{
    put(b"jail -r ", out)?;
    write_path(path, out)
}
