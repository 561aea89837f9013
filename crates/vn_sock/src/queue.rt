ghost use Rattle.std.specs.Prelude.{◌≡◌, ◌++◌, ◌∷◌, [], ◌↔◌, ◌≤◌, IfOk, IfErr, IsErr, OnOk, OnErr, drop, filter, length, not, slice_get};
ghost use Rattle.vn_types.specs.Interfaces.{half_id_eq, if_same};
ghost use Rattle.vn_rules.specs.declared.socket.TheConstants.{RECEIVED_MAX};

use std::alloc::Global;
use std::collections::VecDeque;
use std::marker::Model;
use vn_rules::{Gram, RECEIVED_MAX};
use vn_types::{If, NoMemory, same_interface};

/// The datagrams that a socket has received, oldest first. Only `new` takes memory.
#[derive(Drop)]
pub(crate) struct Queue {
    grams: VecDeque<Gram>,
}

impl Model for Queue {
    ghost use Rattle.std.specs.Prelude.{◌≤◌, List};
    ghost use Rattle.std.specs.VecDeque.{deque_capacity};
    ghost use Rattle.vn_types.specs.declared.interface.HalfId.{HalfId};
    ghost use Rattle.vn_rules.specs.declared.socket.GramOf.{GramOf};
    ghost use Rattle.vn_rules.specs.declared.socket.TheConstants.{RECEIVED_MAX};

    ghost Value = { List (GramOf HalfId) };

    ghost view = { λ a. a.grams.items };

    ghost invariant = { λ a. RECEIVED_MAX ≤ deque_capacity a.grams };
}

impl Queue {
    /// An empty queue with room for all that it may hold.
    pub(crate) fn new(alloc: Global) -> Result<Queue, NoMemory>
        ensures { IfOk result (λ queue. queue ≡ []) }
    {
        let grams = VecDeque::with_capacity(alloc, RECEIVED_MAX)?;
        Ok(Queue { grams })
    }

    /// Puts a datagram behind the others, or hands it back.
    pub(crate) fn try_put(&mut self, gram: Gram) -> Result<(), Gram>
        ensures full { IsErr result ↔ (RECEIVED_MAX ≤ length self.old) }
        ensures put { OnOk result (self.new ≡ self.old ++ gram ∷ []) }
        ensures handed_back { IfErr result (λ back. back ≡ gram) }
        ensures kept { OnErr result (self.new ≡ self.old) }
    {
        if self.grams.len() >= RECEIVED_MAX {
            return Err(gram);
        }
        self.grams.push_back_reserved(gram);
        Ok(())
    }

    /// Takes the oldest datagram.
    pub(crate) fn take(&mut self) -> Option<Gram>
        ensures first { result ≡ slice_get self.old 0 }
        ensures rest { self.new ≡ drop 1 self.old }
    {
        self.grams.pop_front()
    }

    /// Drops the datagrams that came by the interface.
    pub(crate) fn purge(&mut self, via: If)
        ensures { self.new ≡ filter (λ g. not (if_same half_id_eq g.via via)) self.old }
    {
        self.grams.retain(|gram| !same_interface(gram.via, via));
    }
}
