ghost use Rattle.std.specs.Prelude.{◌≡◌, drop, take};
ghost use Rattle.vn_types.specs.Ip4Header.{header_of, header_len};
ghost use Rattle.vn_ip4fmt.specs.Heads.{head_of};
ghost use Rattle.vn_rules.specs.Errors.{is_echo, may_answer};

use vn_ip4fmt::Ip4View;

/// The number of ICMP among the protocols (RFC 790).
const ICMP: u8 = 1;

/// Whether an ICMP error may be sent about a datagram that was received, in a broadcast frame or not.
pub fn may_answer(view: &Ip4View<'_>, link_broadcast: bool) -> bool
    ensures { result
        ≡ may_answer link_broadcast (head_of view.now).proto
        (drop (header_len view.now) (take (header_of view.now).total view.now)) }
{
    // RFC 1122, section 3.2.2: "An ICMP error message MUST NOT be sent as the result of receiving: an ICMP
    // error message, or .. a datagram sent as a link-layer broadcast".
    !link_broadcast && (view.head().proto != ICMP || is_echo(view.body()))
}

/// Whether a message begins with the type of an echo or of its reply.
fn is_echo(message: &[u8]) -> bool
    ensures { result ≡ is_echo message.now }
{
    match message.first() {
        Some(kind) => *kind == 0 || *kind == 8,
        None => false,
    }
}
