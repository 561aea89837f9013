ghost use Rattle.std.specs.Prelude.{◌≡◌, ◌++◌, OnOk};
ghost use Rattle.std.specs.Io.{StartsWith};
ghost use Rattle.vn_cells.specs.texts.Programs.{destination_text, is_default, route_text, route_removal_text};

use crate::put::{put, put_prefix, put_with_ip4};
use vn_types::{Ip4, NoMemory, Prefix};

/// A route by a gateway is added (route(8)).
pub(crate) fn put_route(to: Prefix, via: Ip4, out: &mut Vec<u8>) -> Result<(), NoMemory>
    ensures put { OnOk result (out.new.items ≡ out.old.items ++ route_text to via) }
    ensures front { StartsWith out.new.items out.old.items }
{
    put(b"route add ", out)?;
    put_destination(to, out)?;
    put_with_ip4(b" ", via, out)
}

/// A route by a gateway is removed.
pub(crate) fn put_route_removal(to: Prefix, out: &mut Vec<u8>) -> Result<(), NoMemory>
    ensures put { OnOk result (out.new.items ≡ out.old.items ++ route_removal_text to) }
    ensures front { StartsWith out.new.items out.old.items }
{
    put(b"route delete ", out)?;
    put_destination(to, out)
}

/// The network of all addresses has a name.
fn put_destination(to: Prefix, out: &mut Vec<u8>) -> Result<(), NoMemory>
    ensures put { OnOk result (out.new.items ≡ out.old.items ++ destination_text to) }
    ensures front { StartsWith out.new.items out.old.items }
{
    if is_default(to) {
        return put(b"default", out);
    }
    put_prefix(to.net, to.len, out)
}

fn is_default(to: Prefix) -> bool
    ensures { result ≡ is_default to }
{
    to.net.0 == 0 && to.len == 0
}
