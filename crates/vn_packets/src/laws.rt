ghost use Rattle.std.specs.Prelude.{◌≡◌, Bool, codes};
ghost use Rattle.vn_types.specs.declared.half.Half.{Half as AnyHalf};
ghost use Rattle.vn_types.specs.declared.interface.HalfId.{HalfId};
ghost use Rattle.vn_types.specs.Interfaces.{half_id_eq};
ghost use Rattle.vn_packets.specs.Laws.{KeepsNames, IsSameRenamed, TellsNames, StaysSound, LowersWeight, GrowsLittle};
ghost use Rattle.vn_packets.specs.Worked.{hex_text, asking_frame, ping_header, short_checksum, echo_checksum, zero_sum, asking_text, ping_text};

/// Whatever the halves are called, by number or by home, unit and side, a stack does the same with its
/// packets.
pub fn law_of_names()
    ensures { (r : HalfId → AnyHalf) (at_n : HalfId → HalfId → Bool) (at_m : AnyHalf → AnyHalf → Bool)
        → KeepsNames r at_n at_m → IsSameRenamed r at_n at_m }
{}

/// A sound stack stays sound, whatever it sends and whatever comes.
pub fn law_of_sound_packets()
    ensures numbered { StaysSound half_id_eq }
    ensures named { (same : AnyHalf → AnyHalf → Bool) → TellsNames same → StaysSound same }
{}

/// Each delivery lowers the weight of what waits by at least one, so that deliveries come to an end.
pub fn law_of_falling_weight()
    ensures numbered { LowersWeight half_id_eq }
    ensures named { (same : AnyHalf → AnyHalf → Bool) → TellsNames same → LowersWeight same }
{}

/// What one event adds to a stack's counters, and how many timers it arms.
pub fn law_of_counters()
    ensures numbered { GrowsLittle half_id_eq }
    ensures named { (same : AnyHalf → AnyHalf → Bool) → GrowsLittle same }
{}

/// Octets on the wire: a request for a neighbour, the header of a ping to it, the checksums of a ping whose
/// time to live is 1 and of an echo of zeros, and a UDP checksum that comes out as 0, which is sent as ffff.
pub fn law_of_worked_octets()
    ensures asking { hex_text asking_frame ≡ asking_text }
    ensures ping { hex_text ping_header ≡ ping_text }
    ensures short { hex_text short_checksum ≡ codes "a4a8" }
    ensures echo { hex_text echo_checksum ≡ codes "f7ff" }
    ensures zero { hex_text zero_sum ≡ codes "13880007000affffd848" }
{}
