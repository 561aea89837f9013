ghost use Rattle.std.specs.Prelude.{◌≡◌, ◌≤◌, ◌+◌, length};
ghost use Rattle.byteorder.specs.Endian.{big_bytes, big_from};
ghost use Rattle.vn_link.specs.Macs.{IsMac, mac_of, mac_size, number_of};

use vn_types::Mac;

const OCTETS: usize = 6;

/// The hardware address in the octets from a place on.
pub fn mac_at(octets: &[u8], place: usize) -> Mac
    requires { place + mac_size ≤ length octets.now }
    ensures { result ≡ mac_of (big_from place mac_size octets.now) }
{
    let mut mac = [0; OCTETS];
    mac.copy_from_slice(&octets[place..place + OCTETS]);
    Mac(mac)
}

/// Writes a hardware address.
pub fn write_mac(out: &mut [u8], mac: Mac)
    requires { length out.old ≡ mac_size }
    ensures written { out.new ≡ big_bytes mac_size (number_of mac) }
    ensures mac { IsMac mac }
{
    let octets: &[u8] = &mac.0;
    out.copy_from_slice(octets);
}
