ghost use Rattle.std.specs.Prelude.{◌≡◌, ℕ, ◌<◌, [], vec_len, slice_index_or};
ghost use Rattle.std.specs.Prelude.{IfOk, OnOk, MatchOption};
ghost use Rattle.std.specs.Borrow.{sem};
ghost use Rattle.vn_types.specs.PerStack.{of};

use crate::interface::Sid;
use crate::memory::NoMemory;
use std::alloc::Global;
use std::marker::Model;

/// What stands for a stack of which nothing is kept.
pub trait Empty {
    ghost empty: { Self };

    fn empty(alloc: Global) -> Self
        ensures { result ≡ empty };
}

/// What is kept for each stack number, seen as the list of rows.
#[derive(Drop)]
pub struct PerStack<V> {
    rows: Vec<V>,
}

impl<V> Model for PerStack<V> {
    ghost use Rattle.std.specs.Prelude.{List};

    ghost Value = { List V };

    ghost view = { λ a. a.rows.items };
}

impl<V: Empty> PerStack<V> {
    ghost use Rattle.vn_types.specs.Lent.{LendsRow, LendsRows};

    /// A table that keeps nothing of any stack. Takes no memory.
    pub fn new(alloc: Global) -> PerStack<V>
        ensures { result ≡ [] }
    {
        PerStack {
            rows: Vec::new(alloc),
        }
    }

    /// The rows, by stack number.
    pub fn rows(&self) -> &[V]
        ensures { result.now ≡ self.now }
    {
        self.rows.as_slice()
    }

    /// The rows for writing, by stack number.
    pub fn rows_mut(&mut self) -> &mut [V]
        ensures* lends { sem 𝓛 (LendsRows V.row self.entry result) }
        ensures rows { result.now ≡ self.old }
    {
        self.rows.as_mut_slice()
    }

    /// The row of a stack, where there is one: there is none only where nothing is kept.
    pub fn at(&self, sid: Sid) -> Option<&V>
        ensures { MatchOption result
            (of V.empty self.now sid.0 ≡ V.empty)
            (λ row. row.now ≡ of V.empty self.now sid.0) }
    {
        self.rows.get(sid.0 as usize)
    }

    /// The row of a stack for writing, where there is one: none only where nothing is kept.
    pub fn at_mut(&mut self, sid: Sid) -> Option<&mut V>
        ensures* lends { sem 𝓛 (LendsRow V.row self.entry sid.0 result) }
        ensures row { MatchOption result
            (of V.empty self.old sid.0 ≡ V.empty)
            (λ row. row.now ≡ of V.empty self.old sid.0) }
    {
        self.rows.get_mut(sid.0 as usize)
    }
}

impl<V: Empty + Drop> PerStack<V> {
    ghost use Rattle.vn_types.specs.Lent.{LendsNewRow};

    /// The row of a stack for writing, which is new where there was none.
    pub fn at_or_new(&mut self, sid: Sid) -> Result<&mut V, NoMemory>
        ensures* lends { sem 𝓛 (LendsNewRow V.row self.entry sid.0 V.empty result) }
        ensures row { IfOk result (λ row. row.now ≡ of V.empty self.old sid.0) }
    {
        let alloc = *self.rows.allocator();
        make_room(alloc, &mut self.rows, sid.0)?;
        Ok(&mut self.rows[sid.0 as usize])
    }
}

/// Makes a place for a stack number, and changes nothing of what is kept.
pub fn make_room<V: Empty + Drop>(
    alloc: Global,
    rows: &mut Vec<V>,
    sid: u32,
) -> Result<(), NoMemory>
    ensures room { OnOk result (sid < vec_len rows.new) }
    ensures same { (q : ℕ)
        → slice_index_or rows.new.items q V.empty ≡ slice_index_or rows.old.items q V.empty }
{
    while rows.len() <= sid as usize {
        rows.push(V::empty(alloc))?;
    }
    Ok(())
}
