ghost use Rattle.std.specs.Prelude.{◌≡◌, ℕ, true, ◌≤◌, count_by};
ghost use Rattle.vn_types.specs.declared.address.Ip4.{Ip4};
ghost use Rattle.vn_types.specs.declared.interface.HalfId.{HalfId};
ghost use Rattle.vn_types.specs.Interfaces.{half_id_eq};
ghost use Rattle.vn_rules.specs.declared.parts.PartsOf.{PartsOf};
ghost use Rattle.vn_rules.specs.Soundness.{is_sound_parts};
ghost use Rattle.vn_rules.specs.Sockets.{qualifies};

/// A datagram is for at most one of the sockets of a sound stack.
pub fn law_of_one_socket()
    ensures { (p : PartsOf HalfId) (dst : Ip4) (dport : ℕ) (src : Ip4) (sport : ℕ)
        → is_sound_parts half_id_eq p ≡ true
        → count_by (qualifies dst dport src sport) p.sockets ≤ 1 }
{}
