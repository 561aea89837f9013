ghost use Rattle.std.specs.Prelude.{◌≡◌, ◌++◌, OnOk};
ghost use Rattle.std.specs.Io.{StartsWith};
ghost use Rattle.vn_cells.specs.texts.Programs.{setting_text, variable_text};

use crate::put::{put, put_assigned};
use vn_types::{Name, NoMemory};

/// A variable is read (sysctl(8)).
pub(crate) fn put_variable(name: &Name, out: &mut Vec<u8>) -> Result<(), NoMemory>
    ensures put { OnOk result (out.new.items ≡ out.old.items ++ variable_text name.now) }
    ensures front { StartsWith out.new.items out.old.items }
{
    put(b"sysctl ", out)?;
    put(name.text(), out)
}

/// A variable is set.
pub(crate) fn put_setting(name: &Name, value: u64, out: &mut Vec<u8>) -> Result<(), NoMemory>
    ensures put { OnOk result (out.new.items ≡ out.old.items ++ setting_text name.now value) }
    ensures front { StartsWith out.new.items out.old.items }
{
    put_assigned(b"sysctl ", name.text(), b"=", value, out)
}
