//! How long an entry's timer runs, in milliseconds (arp(4)).

/// From a request to the next.
pub(crate) const REQUEST_TIME: u64 = 1_000;

/// While a neighbour that did not reply is not asked again.
pub(crate) const DOWN_TIME: u64 = 20_000;

/// While a learnt hardware address is kept.
pub(crate) const LEARNT_TIME: u64 = 1_200_000;
