ghost use Rattle.std.specs.Prelude.{◌≡◌, ◌↔◌, [], ◌∷◌, IsTrue, IfOk, OnOk, OnErr};
ghost use Rattle.std.specs.List.Sorted.{IsPermutation};
ghost use Rattle.vn_sysinit.specs.Table.{row_of, is_taken, with_entry, AreInOrder, up_names, down_names};

use crate::entry::SysEntry;
use std::alloc::{AllocFailed, Global};
use std::collections::BTreeMap;
use std::marker::Model;
use vn_types::{List, Name, NoMemory};

/// Why an entry was not registered.
#[derive(Drop)]
pub enum RegisterFault {
    /// Its name, or its subsystem and order, is registered.
    Taken,
    NoMemory,
}

impl<T: Drop> From<AllocFailed<T>> for RegisterFault {
    ghost use Rattle.std.specs.Prelude.{◌≡◌};
    ghost use Rattle.vn_sysinit.specs.declared.table.RegisterFault.TheVariants as fault;

    ghost from_gives = { λ _ e. e ≡ fault.NoMemory };

    fn from(_error: AllocFailed<T>) -> RegisterFault {
        RegisterFault::NoMemory
    }
}

/// The registered entries, seen as the list of their places and names, in the order of the places.
#[derive(Drop)]
pub struct SysTable {
    alloc: Global,
    names: BTreeMap<(u32, u32), Name>,
}

impl Model for SysTable {
    ghost use Rattle.std.specs.Prelude.{List as Values};
    ghost use Rattle.vn_sysinit.specs.Table.{Row};

    ghost Value = { Values Row };

    ghost view = { λ t. t.names.entries };
}

impl SysTable {
    /// A table without entries. Takes no memory.
    pub fn new(alloc: Global) -> SysTable
        ensures { result ≡ [] }
    {
        SysTable {
            alloc,
            names: BTreeMap::new(alloc),
        }
    }

    /// Registers an entry at its place.
    pub fn register(&mut self, entry: SysEntry) -> Result<(), RegisterFault>
        ensures taken { (result ≡ Err RegisterFault.Taken) ↔ IsTrue (is_taken entry self.old) }
        ensures added { OnOk result (self.new ≡ with_entry entry self.old) }
        ensures kept { OnErr result (self.new ≡ self.old) }

        // What `with_entry` is: the entries and this one, in the order of their places.
        ensures every { OnOk result (IsPermutation (row_of entry ∷ self.old) self.new) }
        ensures order { OnOk result (AreInOrder self.new) }
    {
        if self.is_taken(&entry) {
            return Err(RegisterFault::Taken);
        }
        let SysEntry {
            subsystem,
            order,
            name,
        } = entry;
        self.names.insert((subsystem, order), name)?;
        Ok(())
    }

    fn is_taken(&self, entry: &SysEntry) -> bool
        ensures { result ≡ is_taken entry.now self.now }
    {
        self.names.iter().any(|(place, name)| {
            (place.0 == entry.subsystem && place.1 == entry.order) || *name == entry.name
        })
    }

    /// The names of all entries in the order of construction: by subsystem, and by order within it.
    pub fn up_list(&self) -> Result<List<Name>, NoMemory>
        ensures names { IfOk result (λ names. names ≡ up_names self.now) }
        ensures order { AreInOrder self.now }
    {
        let mut up = List::new(self.alloc);
        for name in self.names.values() {
            up.push(name.copy()?)?;
        }
        Ok(up)
    }

    /// The names of all entries in the order of destruction, the reverse of that of construction.
    pub fn down_list(&self) -> Result<List<Name>, NoMemory>
        ensures names { IfOk result (λ names. names ≡ down_names self.now) }
        ensures order { AreInOrder self.now }
    {
        let mut down = List::new(self.alloc);
        for name in self.names.values().rev() {
            down.push(name.copy()?)?;
        }
        Ok(down)
    }
}
