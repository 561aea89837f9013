use vn_types::Mac;

/// What becomes of an entry.
#[derive(Clone, Copy)]
pub(crate) enum Change {
    /// One request more was sent.
    Asked,
    /// The neighbour does not reply.
    Down,
    /// The neighbour told its hardware address.
    Learnt(Mac),
    /// Its hardware address was set by hand.
    Static(Mac),
}
