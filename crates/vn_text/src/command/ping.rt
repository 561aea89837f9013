ghost use Rattle.std.specs.Prelude.{◌≡◌, ◌++◌, OnOk};
ghost use Rattle.std.specs.Io.{StartsWith};
ghost use Rattle.vn_cells.specs.texts.Programs.{ping_text, ttl_text};

use crate::put::{put, put_number};
use vn_types::{Ip4, NoMemory, write_ip4};

/// An echo request (ping(8)).
pub(crate) fn put_ping(ttl: Option<u8>, ip: Ip4, out: &mut Vec<u8>) -> Result<(), NoMemory>
    ensures put { OnOk result (out.new.items ≡ out.old.items ++ ping_text ttl ip) }
    ensures front { StartsWith out.new.items out.old.items }
{
    put(b"ping ", out)?;
    put_ttl(ttl, out)?;
    write_ip4(ip, out)
}

/// A time to live that is given.
fn put_ttl(ttl: Option<u8>, out: &mut Vec<u8>) -> Result<(), NoMemory>
    ensures put { OnOk result (out.new.items ≡ out.old.items ++ ttl_text ttl) }
    ensures front { StartsWith out.new.items out.old.items }
{
    let Some(ttl) = ttl else {
        return Ok(());
    };
    put(b"-m ", out)?;
    put_number(u64::from(ttl), out)?;
    put(b" ", out)
}
