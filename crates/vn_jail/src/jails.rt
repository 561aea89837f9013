ghost use Rattle.std.specs.Prelude.{◌≡◌, ◌≢◌, ℕ, ◌+◌, ◌∷◌, ◌↔◌, ◌<◌, ◌≤◌, ◌^◌, [], true, false, IsSome, OnOk, OnErr, IfOk, IfSome, length};
ghost use Rattle.vn_types.specs.Paths.{Path as Labels, above, is_host, parent};
ghost use Rattle.vn_types.specs.Refusals.{IsRefusedBy};
ghost use Rattle.vn_jail.specs.Kept.{IsLinked, IsTree};
ghost use Rattle.vn_jail.specs.Order.{IsInOrder, IsTeardown};
ghost use Rattle.vn_jail.specs.Tree.{MayKnow, any_full, at, changed, create_refusal, created, host_jail, is_alive, is_known, known, number_of, path_at, remove_refusal, removed, start};

use crate::counting::{begin, end, is_any_full};
use crate::jail::Jail;
use crate::order::{count_before, list_under};
use std::alloc::Global;
use std::collections::BTreeMap;
use std::marker::Model;
use vn_types::{Errno, NoMemory, Path, Reply, Sid};

/// The stacks of all paths that were ever constructed, seen as a list by their numbers. A path keeps its
/// number for good.
#[derive(Drop)]
pub struct Jails {
    alloc: Global,
    jails: Vec<Jail>,
    /// The numbers, by path.
    numbers: BTreeMap<Path, u32>,
    /// The living, in the order of their paths.
    order: Vec<Sid>,
}

impl Model for Jails {
    ghost use Rattle.std.specs.Prelude.{List};
    ghost use Rattle.vn_jail.specs.declared.jail.Jail.{Jail as Stack};
    ghost use Rattle.vn_jail.specs.Kept.{IsKept};

    ghost Value = { List Stack };

    ghost view = { λ a. a.jails.items };

    ghost invariant = { λ a. IsKept a.jails.items a.numbers a.order.items };
}

impl Jails {
    /// Host alone, which has number 0.
    pub fn new(alloc: Global) -> Result<Jails, NoMemory>
        ensures { IfOk result (λ jails. jails ≡ host_jail ∷ []) }
    {
        let mut jails = Vec::with_capacity(alloc, 1)?;
        jails.push_reserved(Jail {
            path: Path::host(alloc),
            parent: 0,
            limit: 0,
            living: 0,
            alive: true,
        });
        let mut numbers = BTreeMap::new(alloc);
        numbers.insert(Path::host(alloc), 0)?;
        let mut order = Vec::with_capacity(alloc, 1)?;
        order.push_reserved(Sid(0));
        Ok(Jails {
            alloc,
            jails,
            numbers,
            order,
        })
    }

    /// Makes a jail, and answers the number of its path (jail(8), `-c`).
    pub fn create(&mut self, path: &Path, children_max: u32) -> Reply<Sid>
        requires label { is_host path.now ≡ false }
        requires numbers { length self.old < 2 ^ 32 }
        ensures answer { IfOk result (IsRefusedBy (create_refusal path.now self.old)) }
        ensures number { IfOk result (λ answer. IfOk answer (λ sid. sid.0 ≡ number_of path.now self.old)) }
        ensures created { IfOk result (λ answer. OnOk answer (self.new ≡ created path.now children_max self.old)) }
        ensures within { IfOk result (λ answer. IfOk answer (λ sid. sid.0 < length self.new)) }
        ensures refused { IfOk result (λ answer. OnErr answer (self.new ≡ self.old)) }
        ensures no_memory { OnErr result (MayKnow path.now self.old self.new) }
        ensures numbers { length self.new ≤ length self.old + 1 }
    {
        let parent = path.parent()?;
        let Some(parent) = self.alive(&parent) else {
            return Ok(Err(Errno::NoEnt));
        };
        if self.alive(path).is_some() {
            return Ok(Err(Errno::Exist));
        }
        if is_any_full(&self.jails, parent.0) {
            return Ok(Err(Errno::Perm));
        }
        let sid = self.number(path, parent)?;
        self.start(sid, children_max)?;
        Ok(Ok(sid))
    }

    /// The number of a path, which gets the next one where it has none.
    fn number(&mut self, path: &Path, up: Sid) -> Result<Sid, NoMemory>
        requires label { is_host path.now ≡ false }
        requires numbers { length self.old < 2 ^ 32 }
        requires alive { is_alive (parent path.now) self.old ≡ true }
        requires parent { up.0 ≡ number_of (parent path.now) self.old }
        ensures known { OnOk result (self.new ≡ known path.now self.old) }
        ensures number { IfOk result (λ sid. sid.0 ≡ number_of path.now self.old) }
        ensures kept { OnErr result (self.new ≡ self.old) }
    {
        if let Some(number) = self.numbers.get(path) {
            return Ok(Sid(*number));
        }
        let number = self.jails.len() as u32;
        let jail = Jail {
            path: path.copy()?,
            parent: up.0,
            limit: 0,
            living: 0,
            alive: false,
        };
        self.jails.reserve(1)?;
        self.numbers.insert(path.copy()?, number)?;
        self.jails.push_reserved(jail);
        Ok(Sid(number))
    }

    /// Lets a jail live that has a number.
    fn start(&mut self, sid: Sid, limit: u32) -> Result<(), NoMemory>
        requires number { sid.0 < length self.old }
        requires jail { is_host (path_at self.old sid.0) ≡ false }
        requires dead { (at self.old sid.0).alive ≡ false }
        requires parent { is_alive (parent (path_at self.old sid.0)) self.old ≡ true }
        requires room { any_full self.old (above (path_at self.old sid.0)) ≡ false }
        ensures started { OnOk result (self.new
            ≡ changed (start limit) (λ n. n + 1) (path_at self.old sid.0) self.old) }
        ensures kept { OnErr result (self.new ≡ self.old) }
    {
        let path = &self.jails[sid.0 as usize].path;
        let place = count_before(&self.jails, &self.order, path);
        self.order.insert(place, sid)?;
        begin(&mut self.jails, sid.0, limit);
        Ok(())
    }

    /// The number of a living path. Takes no memory.
    pub fn alive(&self, path: &Path) -> Option<Sid>
        ensures alive { IsSome result ↔ (is_alive path.now self.now ≡ true) }
        ensures number { IfSome result (λ sid. sid.0 ≡ number_of path.now self.now) }
        ensures within { IfSome result (λ sid. sid.0 < length self.now) }
    {
        let Some(number) = self.numbers.get(path) else {
            return None;
        };
        if !self.jails[*number as usize].alive {
            return None;
        }
        Some(Sid(*number))
    }

    /// A path and its living descendants, by falling order of their paths: a jail stands behind all that is
    /// below it.
    pub fn teardown(&self, path: &Path) -> Reply<Vec<Sid>>
        ensures answer { IfOk result (IsRefusedBy (remove_refusal path.now self.now)) }
        ensures listed { IfOk result (λ answer. IfOk answer (λ sids. IsTeardown path.now self.now sids.items)) }
    {
        if self.alive(path).is_none() {
            return Ok(Err(Errno::NoEnt));
        }
        let mut sids = list_under(self.alloc, &self.jails, &self.order, path)?;
        sids.reverse();
        Ok(Ok(sids))
    }

    /// Ends a jail (jail(8), `-r`). Takes no memory.
    pub fn remove(&mut self, sid: Sid)
        requires alive { (at self.old sid.0).alive ≡ true }
        requires jail { sid.0 ≢ 0 }
        requires childless { (p : Labels) → is_alive p self.old ≡ true → parent p ≢ path_at self.old sid.0 }
        ensures { self.new ≡ removed (path_at self.old sid.0) self.old }
    {
        let path = &self.jails[sid.0 as usize].path;
        let place = count_before(&self.jails, &self.order, path);
        self.order.remove(place);
        end(&mut self.jails, sid.0);
    }

    /// The path of a number.
    pub fn path(&self, sid: Sid) -> &Path
        requires { sid.0 < length self.now }
        ensures { result.now ≡ path_at self.now sid.0 }
    {
        &self.jails[sid.0 as usize].path
    }

    /// What is true of every table: no two numbers have one path, the parent of a living jail lives, and a
    /// living jail other than host has the number of its living descendants.
    pub fn law_of_tree(&self)
        ensures paths { IsLinked self.now }
        ensures tree { IsTree self.now }
    {
        let _ = &self.jails;
    }

    /// The living, in the order of their paths. Takes no memory.
    pub fn in_order(&self) -> &[Sid]
        ensures { IsInOrder self.now result.now }
    {
        self.order.as_slice()
    }
}
