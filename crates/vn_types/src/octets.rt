ghost use Rattle.std.specs.Prelude.{◌≡◌, Some, [], ◌++◌, ◌∷◌, IfOk, OnOk, OnErr, refl};
ghost use Rattle.std.specs.Str.{bytes_eq};
ghost use Rattle.std.specs.Ordering.{nat_cmp};
ghost use Rattle.std.specs.Cmp.Lexicographic.{slice_cmp, nat_list_cmp_total, nat_list_eq_equiv};
ghost use Rattle.std.specs.Cmp.{partial_equiv_from_equiv};
ghost use Rattle.vn_types.specs.OctetOrder.{octets_po, octets_ties};

use crate::memory::NoMemory;
use std::alloc::Global;
use std::cmp::Ordering;
use std::marker::Model;

/// A list of octets, compared octet by octet.
#[derive(Drop)]
pub struct Octets {
    items: Vec<u8>,
}

impl Model for Octets {
    ghost use Rattle.std.specs.Prelude.{List, ℕ};

    ghost Value = { List ℕ };

    ghost view = { λ a. a.items.items };
}

impl PartialEq for Octets {
    ghost eq = { bytes_eq };

    ghost laws = { partial_equiv_from_equiv nat_list_eq_equiv };

    fn eq(&self, other: &Octets) -> bool {
        self.items.as_slice() == other.items.as_slice()
    }
}

impl Eq for Octets {
    ghost laws = { nat_list_eq_equiv };
}

impl PartialOrd for Octets {
    ghost partial_cmp = { λ a b. Some (slice_cmp nat_cmp a b) };

    ghost laws = { octets_po };

    fn partial_cmp(&self, other: &Octets) -> Option<Ordering> {
        Some(self.cmp(other))
    }
}

impl Ord for Octets {
    ghost cmp = { slice_cmp nat_cmp };

    ghost total = { nat_list_cmp_total };

    ghost matches_partial_cmp = { λ a b. refl };

    ghost matches_eq = { octets_ties };

    fn cmp(&self, other: &Octets) -> Ordering {
        self.items.as_slice().cmp(other.items.as_slice())
    }
}

impl Octets {
    /// No octets. Takes no memory.
    pub fn new(alloc: Global) -> Octets
        ensures { result ≡ [] }
    {
        Octets {
            items: Vec::new(alloc),
        }
    }

    /// No octets, with room for so many.
    pub fn with_capacity(alloc: Global, capacity: usize) -> Result<Octets, NoMemory>
        ensures { IfOk result (λ o. o ≡ []) }
    {
        let items = Vec::with_capacity(alloc, capacity)?;
        Ok(Octets { items })
    }

    /// The allocator of the octets.
    pub(crate) fn allocator(&self) -> Global {
        *self.items.allocator()
    }

    /// The octets of a slice.
    pub fn from_slice(alloc: Global, octets: &[u8]) -> Result<Octets, NoMemory>
        ensures { IfOk result (λ o. o ≡ octets.now) }
    {
        let items = Vec::from_slice(alloc, octets)?;
        Ok(Octets { items })
    }

    /// The octets, in order.
    pub fn as_slice(&self) -> &[u8]
        ensures { result.now ≡ self.now }
    {
        self.items.as_slice()
    }

    /// Puts more octets at the end.
    pub fn extend(&mut self, more: &[u8]) -> Result<(), NoMemory>
        ensures ok { OnOk result (self.new ≡ self.old ++ more.now) }
        ensures err { OnErr result (self.new ≡ self.old) }
    {
        self.items.extend_from_slice(more)?;
        Ok(())
    }

    /// The same octets once more.
    pub fn copy(&self) -> Result<Octets, NoMemory>
        ensures { IfOk result (λ o. o ≡ self.now) }
    {
        Octets::from_slice(self.allocator(), self.items.as_slice())
    }
}
