ghost use Rattle.std.specs.Prelude.{◌≡◌, ◌≢◌, ◌≤◌, ◌<◌, ℕ, cond, [], ◌∷◌, ◌++◌, Some, None, OnOk, OnErr, IfSome, length, slice_get};
ghost use Rattle.std.specs.BTreeMap.{is_at};
ghost use Rattle.std.specs.List.{AllByRecursion};
ghost use Rattle.std.specs.List.Sorted.{IsStrictlySortedBy};
ghost use Rattle.std.specs.Map.{keys_of, remove_entry};
ghost use Rattle.std.specs.Option.{option_map};
ghost use Rattle.std.specs.Ordering.{nat_cmp};
ghost use Rattle.vn_types.specs.declared.interface.IfName.{IfName as Spelt};
ghost use Rattle.vn_ifnet.specs.declared.interfaces.Attached.{Attached as Entry};
ghost use Rattle.vn_ifnet.specs.Kept.{IsIndex, number_of_name, told};
ghost use Rattle.vn_ifnet.specs.Names.{name_number, if_number, side_number};
ghost use Rattle.vn_ifnet.specs.Stacks.{is_another, named, nothing, reserved_by, with_last, without};

use std::alloc::Global;
use std::collections::BTreeMap;
use std::collections::btree_map::Values;
use std::marker::Model;
use vn_types::{Empty, HalfId, If, IfName, NoMemory, Side, same_half};

/// An interface with the name under which it stands.
#[derive(Clone, Copy)]
pub struct Attached {
    pub what: If,
    pub name: IfName,
}

/// The interfaces of one stack, and the names that are reserved there.
#[derive(Drop)]
pub(crate) struct Interfaces {
    /// By order of attachment.
    attached: BTreeMap<u64, Attached>,
    /// The order, by the number of the name.
    names: BTreeMap<u64, u64>,
    /// The order, by the number of the interface.
    places: BTreeMap<u64, u64>,
    /// By the number of the name.
    reserved: BTreeMap<u64, HalfId>,
}

impl Model for Interfaces {
    ghost use Rattle.std.specs.Prelude.{List};
    ghost use Rattle.std.specs.Map.{values_of};
    ghost use Rattle.vn_ifnet.specs.Stacks.{Held};
    ghost use Rattle.vn_ifnet.specs.Kept.{IsIndexed};

    ghost Value = { Held };

    ghost view = { λ a. record {
      attached = values_of a.attached.entries;
      reserved = a.reserved.entries;
    } };

    ghost invariant = { λ a. IsIndexed a.attached.entries a.names.entries a.places.entries };
}

impl Empty for Interfaces {
    ghost empty = { nothing };

    fn empty(alloc: Global) -> Interfaces {
        Interfaces {
            attached: BTreeMap::new(alloc),
            names: BTreeMap::new(alloc),
            places: BTreeMap::new(alloc),
            reserved: BTreeMap::new(alloc),
        }
    }
}

fn side_number(side: Side) -> u64
    ensures number { result ≡ side_number side }
    ensures most { result ≤ 2 }
{
    match side {
        Side::A => 1,
        Side::B => 2,
    }
}

fn name_number(name: IfName) -> u64
    ensures { result ≡ name_number name }
{
    match name {
        IfName::Lo0 => 0,
        IfName::Epair { unit, side } => u64::from(unit) * 2 + side_number(side),
    }
}

/// The number by which an interface is looked up. No two have one.
pub fn if_number(what: If) -> u64
    ensures { result ≡ if_number what }
{
    match what {
        If::Lo0 => 0,
        If::Half(half) => u64::from(half.pair) * 2 + side_number(half.side),
    }
}

/// An order behind all that are given.
fn next_order(attached: &BTreeMap<u64, Attached>) -> Option<u64>
    ensures { IfSome result (λ order. AllByRecursion (λ k. k < order) (keys_of attached.now.entries)) }
{
    match attached.last_key_value() {
        Some((last, _)) => last.checked_add(1),
        None => Some(0),
    }
}

/// Puts an interface in behind all others, with the order of its name.
fn put_in(
    attached: &mut BTreeMap<u64, Attached>,
    names: &mut BTreeMap<u64, u64>,
    order: u64,
    last: Attached,
) -> Result<(), NoMemory>
    requires index { IsIndex number_of_name attached.old.entries names.old.entries }
    requires behind { AllByRecursion (λ k. k < order) (keys_of attached.old.entries) }
    requires free { told (name_number last.name) names.old.entries ≡ None }
    ensures index { OnOk result (IsIndex number_of_name attached.new.entries names.new.entries) }
    ensures entries { OnOk result (attached.new.entries ≡ attached.old.entries ++ (order, last) ∷ []) }
    ensures found { OnOk result ((k : ℕ) → told k attached.new.entries
        ≡ cond (is_at (nat_cmp order) k) (Some last) (told k attached.old.entries)) }
    ensures ordered { IsStrictlySortedBy nat_cmp (keys_of attached.new.entries) }
    ensures kept { OnErr result (attached.new.entries ≡ attached.old.entries) }
    ensures names { OnErr result (names.new.entries ≡ names.old.entries) }
{
    attached.insert(order, last)?;
    let Ok(_) = names.insert(name_number(last.name), order) else {
        attached.remove(&order);
        return Err(NoMemory);
    };
    Ok(())
}

/// Takes out what stands at an order, with the order of its name.
fn take_out(attached: &mut BTreeMap<u64, Attached>, names: &mut BTreeMap<u64, u64>, order: u64)
    requires { IsIndex number_of_name attached.old.entries names.old.entries }
    ensures index { IsIndex number_of_name attached.new.entries names.new.entries }
    ensures entries { attached.new.entries ≡ remove_entry (is_at (nat_cmp order)) attached.old.entries }
    ensures found { (k : ℕ) → told k attached.new.entries
        ≡ cond (is_at (nat_cmp order) k) None (told k attached.old.entries) }
    ensures ordered { IsStrictlySortedBy nat_cmp (keys_of attached.new.entries) }
{
    if let Some(gone) = attached.remove(&order) {
        names.remove(&name_number(gone.name));
    }
}

impl Interfaces {
    pub(crate) fn attach(&mut self, what: If, name: IfName) -> Result<(), NoMemory>
        requires { named name self.old ≡ None }
        ensures attached { OnOk result (self.new ≡ with_last what name self.old) }
        ensures kept { OnErr result (self.new ≡ self.old) }
    {
        let order = next_order(&self.attached).ok_or(NoMemory)?;
        put_in(
            &mut self.attached,
            &mut self.names,
            order,
            Attached { what, name },
        )?;
        match self.places.insert(if_number(what), order) {
            Ok(Some(before)) => {
                take_out(&mut self.attached, &mut self.names, before);
                Ok(())
            }
            Ok(None) => Ok(()),
            Err(_) => {
                take_out(&mut self.attached, &mut self.names, order);
                Err(NoMemory)
            }
        }
    }

    pub(crate) fn detach(&mut self, what: If)
        ensures { self.new ≡ record self.old { attached = without what self.old.attached } }
    {
        if let Some(order) = self.places.remove(&if_number(what)) {
            take_out(&mut self.attached, &mut self.names, order);
        }
    }

    pub(crate) fn find(&self, name: IfName) -> Option<If>
        ensures { result ≡ named name self.now }
    {
        let order = self.names.get(&name_number(name))?;
        let attached = self.attached.get(order)?;
        Some(attached.what)
    }

    pub(crate) fn is_reserved(&self, name: IfName, but: Option<HalfId>) -> bool
        ensures { result ≡ is_another (reserved_by name self.now) but }
    {
        let Some(half) = self.reserved.get(&name_number(name)) else {
            return false;
        };
        match but {
            Some(but) => !same_half(*half, but),
            None => true,
        }
    }

    pub(crate) fn reserve(&mut self, name: IfName, half: HalfId) -> Result<(), NoMemory>
        ensures attached { self.new.attached ≡ self.old.attached }
        ensures reserved { OnOk result (reserved_by name self.new ≡ Some half) }
        ensures others { (other : Spelt) → other ≢ name
            → reserved_by other self.new ≡ reserved_by other self.old }
        ensures kept { OnErr result (self.new ≡ self.old) }
    {
        self.reserved.insert(name_number(name), half)?;
        Ok(())
    }

    pub(crate) fn release(&mut self, name: IfName)
        ensures attached { self.new.attached ≡ self.old.attached }
        ensures released { reserved_by name self.new ≡ None }
        ensures others { (other : Spelt) → other ≢ name
            → reserved_by other self.new ≡ reserved_by other self.old }
    {
        self.reserved.remove(&name_number(name));
    }

    pub(crate) fn count(&self) -> u64
        ensures { result ≡ length self.now.attached }
    {
        self.attached.len() as u64
    }

    pub(crate) fn attached(&self) -> Values<'_, u64, Attached>
        ensures { result ≡ self.now.attached }
    {
        self.attached.values()
    }

    pub(crate) fn at(&self, place: u64) -> Option<If>
        ensures { result ≡ option_map (λ (a : Entry). a.what) (slice_get self.now.attached place) }
    {
        let attached = self.attached.values().nth(place as usize)?;
        Some(attached.what)
    }
}
