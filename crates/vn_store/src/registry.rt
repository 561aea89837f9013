ghost use Rattle.std.specs.Prelude.{◌≡◌, ◌↔◌, ℕ, ◌≤◌, [], ◌∷◌, ◌++◌, Some, None, IsTrue, IsSome, IsErr, IfSome, IfOk, OnOk, OnErr, option_map};
ghost use Rattle.std.specs.Result.{result_err};
ghost use Rattle.vn_types.specs.PerStack.{ChangesOnly};
ghost use Rattle.vn_rules.specs.Variables.{allows, bounds_of, with_value, with_variable, first_variables, declarations};
ghost use Rattle.vn_store.specs.Held.{of, value_in, IsUnchanged};
ghost use Rattle.vn_store.specs.Faults.{set_fault};

use crate::fault::{DeclareFault, SetFault, Unknown};
use crate::instances::Instances;
use indexmap::IndexMap;
use std::alloc::Global;
use std::marker::Model;
use vn_rules::Bounds;
use vn_types::{NoMemory, Sid};

const FLAG_OFF: Bounds = Bounds {
    initial: 0,
    least: 0,
    greatest: 1,
};

const FLAG_ON: Bounds = Bounds {
    initial: 1,
    least: 0,
    greatest: 1,
};

const TTL: Bounds = Bounds {
    initial: 64,
    least: 1,
    greatest: 255,
};

/// The declared variables with the values of each stack that has an instance of them. A look-up takes the
/// same time whatever the number of stacks.
#[derive(Drop)]
pub struct Registry {
    alloc: Global,
    declared: IndexMap<String, Bounds>,
    values: Instances,
}

impl Model for Registry {
    ghost use Rattle.std.specs.Prelude.{◌≡◌, ℕ, true, None};
    ghost use Rattle.vn_types.specs.PerStack.{of as kept_for};
    ghost use Rattle.vn_store.specs.Variables.{declared_in, shown, are_declarations, is_row};
    ghost use Rattle.vn_store.specs.Held.{Held};

    ghost Value = { Held };

    ghost view = { λ a. record {
      declared = declared_in a.declared.entries;
      stacks = shown (declared_in a.declared.entries) a.values;
    } };

    ghost invariant = { λ a. (are_declarations (declared_in a.declared.entries) ≡ true)
        × ((q : ℕ) → is_row (declared_in a.declared.entries) (kept_for None a.values q) ≡ true) };
}

impl Registry {
    /// A registry without variables and without instances. Takes no memory.
    pub fn new(alloc: Global) -> Registry
        ensures declared { result.declared ≡ [] }
        ensures stacks { (q : ℕ) → of result q ≡ None }
    {
        Registry {
            alloc,
            declared: IndexMap::new(alloc),
            values: Instances::new(alloc),
        }
    }

    /// A registry of the variables that each stack is given, without instances.
    pub fn declared(alloc: Global) -> Result<Registry, NoMemory>
        ensures declared { IfOk result (λ r. r.declared ≡ declarations) }
        ensures stacks { IfOk result (λ r. (q : ℕ) → of r q ≡ None) }
    {
        let mut registry = Registry::new(alloc);
        registry.add("net.inet.ip.forwarding", FLAG_OFF)?;
        registry.add("net.inet.ip.ttl", TTL)?;
        registry.add("net.inet.udp.checksum", FLAG_ON)?;
        Ok(registry)
    }

    /// Declares a variable. Each stack that has an instance is given its initial value.
    pub fn declare(
        &mut self,
        name: &str,
        initial: u64,
        least: u64,
        greatest: u64,
    ) -> Result<(), DeclareFault>
        requires least { least ≤ initial }
        requires greatest { initial ≤ greatest }
        ensures taken { (result ≡ Err DeclareFault.Taken)
            ↔ IsSome (bounds_of name.now self.old.declared) }
        ensures declared { OnOk result (self.new.declared ≡ self.old.declared
            ++ (name.now, record { initial = initial; least = least; greatest = greatest }) ∷ []) }
        ensures given { OnOk result ((q : ℕ) → of self.new q
            ≡ option_map (with_variable name.now initial) (of self.old q)) }
        ensures kept { OnErr result (IsUnchanged self.old self.new) }
    {
        if self.declared.contains_key(name) {
            return Err(DeclareFault::Taken);
        }
        let bounds = Bounds {
            initial,
            least,
            greatest,
        };
        self.add(name, bounds)?;
        Ok(())
    }

    /// Declares a variable of a new name.
    fn add(&mut self, name: &str, bounds: Bounds) -> Result<(), NoMemory>
        requires new { bounds_of name.now self.old.declared ≡ None }
        requires initial { IsTrue (allows bounds bounds.initial) }
        ensures declared { OnOk result (self.new.declared
            ≡ self.old.declared ++ (name.now, bounds) ∷ []) }
        ensures given { OnOk result ((q : ℕ) → of self.new q
            ≡ option_map (with_variable name.now bounds.initial) (of self.old q)) }
        ensures kept { OnErr result (IsUnchanged self.old self.new) }
    {
        let name = String::from_str(self.alloc, name)?;
        // Where there is no memory for the name, the values that were given are not seen.
        let count = self.declared.len();
        self.values.give(count, bounds.initial)?;
        self.declared.insert(name, bounds)?;
        Ok(())
    }

    /// Gives a stack the variables, with their initial values.
    pub fn instance(&mut self, sid: Sid) -> Result<(), NoMemory>
        requires { of self.old sid.0 ≡ None }
        ensures started { OnOk result (of self.new sid.0
            ≡ Some (first_variables self.old.declared)) }
        ensures declared { self.new.declared ≡ self.old.declared }
        ensures others { ChangesOnly sid.0 (of self.old) (of self.new) }
        ensures kept { OnErr result (IsUnchanged self.old self.new) }
    {
        let mut values = Vec::new(self.alloc);
        for bounds in self.declared.values() {
            values.push(bounds.initial)?;
        }
        self.values.start(sid, values)
    }

    /// The value of a variable of a stack. It is within the bounds of the variable.
    pub fn get(&self, sid: Sid, name: &str) -> Result<u64, Unknown>
        requires { IsSome (of self.now sid.0) }
        ensures value { IfOk result (λ v. value_in self.now sid.0 name.now ≡ Some v) }
        ensures bounds { IfOk result (λ v. IfSome (bounds_of name.now self.now.declared)
            (λ b. IsTrue (allows b v))) }
        ensures unknown { IsErr result ↔ (bounds_of name.now self.now.declared ≡ None) }
    {
        match self.declared.get_index_of(name) {
            Some(place) => Ok(self.values.get(sid, place)),
            None => Err(Unknown),
        }
    }

    /// Sets a variable of a stack.
    pub fn set(&mut self, sid: Sid, name: &str, value: u64) -> Result<(), SetFault>
        requires { IsSome (of self.old sid.0) }
        ensures fault { result_err result ≡ set_fault (bounds_of name.now self.old.declared) value }
        ensures set { OnOk result (of self.new sid.0
            ≡ option_map (with_value name.now value) (of self.old sid.0)) }
        ensures declared { self.new.declared ≡ self.old.declared }
        ensures others { ChangesOnly sid.0 (of self.old) (of self.new) }
        ensures kept { OnErr result (self.new ≡ self.old) }
    {
        match self.declared.get_index_of(name) {
            Some(place) => {
                let bounds = self.declared[place];
                if !bounds.allows(value) {
                    return Err(SetFault::Range);
                }
                self.values.set(sid, place, value);
                Ok(())
            }
            None => Err(SetFault::Unknown),
        }
    }

    /// Takes the variables of a stack away.
    pub fn drop_instance(&mut self, sid: Sid)
        requires { IsSome (of self.old sid.0) }
        ensures dropped { of self.new sid.0 ≡ None }
        ensures declared { self.new.declared ≡ self.old.declared }
        ensures others { ChangesOnly sid.0 (of self.old) (of self.new) }
    {
        self.values.stop(sid);
    }
}
