ghost use Rattle.std.specs.Prelude.{◌≡◌, ◌<◌, ◌+◌, ◌*◌, ◌/◌, ◌%◌, ◌==◌};
ghost use Rattle.vn_types.specs.Fields.{bit};

// The flags in the octet that they share with the offset (RFC 791, section 3.1). The first bit is reserved.
const DF: u8 = 0x40;

const MF: u8 = 0x20;

const OFFSET: u16 = 0x1fff;

/// The word that has these flags and this offset.
pub(crate) fn place(df: bool, mf: bool, offset: u16) -> u16
    requires { offset < 8192 }
    ensures { result ≡ 16384 * bit df + 8192 * bit mf + offset }
{
    let df = if df { DF } else { 0 };
    let mf = if mf { MF } else { 0 };
    u16::from(df + mf) * 256 + offset
}

pub(crate) fn df_of(flags: u8) -> bool
    ensures { result ≡ (flags / 64 % 2 == 1) }
{
    flags & DF != 0
}

pub(crate) fn mf_of(flags: u8) -> bool
    ensures { result ≡ (flags / 32 % 2 == 1) }
{
    flags & MF != 0
}

pub(crate) fn offset_of(place: u16) -> u16
    ensures { result ≡ place % 8192 }
{
    place & OFFSET
}
