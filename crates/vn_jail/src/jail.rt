ghost use Rattle.std.specs.Prelude.{◌≡◌, ◌+◌, ◌-◌, false};
ghost use Rattle.vn_jail.specs.declared.jail.Living.TheVariants.{More};
ghost use Rattle.vn_jail.specs.Tree.{counted, is_full, start, stop};

use vn_types::Path;

/// A path that was constructed once, whether it lives or not.
#[derive(Drop)]
pub(crate) struct Jail {
    pub(crate) path: Path,
    /// The number of its parent, and for host 0.
    pub(crate) parent: u32,
    /// The most living descendants. Host has no limit, and counts none.
    pub(crate) limit: u32,
    pub(crate) living: u32,
    pub(crate) alive: bool,
}

/// One living descendant more, or one less.
#[derive(Clone, Copy)]
pub(crate) enum Living {
    More,
    Less,
}

impl Jail {
    /// Lets it live, without descendants.
    pub(crate) fn start(&mut self, limit: u32)
        ensures { self.new ≡ start limit self.old }
    {
        self.limit = limit;
        self.living = 0;
        self.alive = true;
    }

    pub(crate) fn stop(&mut self)
        ensures { self.new ≡ stop self.old }
    {
        self.alive = false;
    }

    pub(crate) fn is_full(&self) -> bool
        ensures { result ≡ is_full self.now }
    {
        self.limit <= self.living
    }

    pub(crate) fn count_one(&mut self, living: Living)
        requires { living ≡ More → is_full self.old ≡ false }
        ensures { self.new ≡ record self.old { living = counted living self.old.living } }
    {
        match living {
            Living::More => self.count_one_more(),
            Living::Less => self.count_one_less(),
        }
    }

    fn count_one_more(&mut self)
        requires { is_full self.old ≡ false }
        ensures { self.new ≡ record self.old { living = self.old.living + 1 } }
    {
        self.living += 1;
    }

    fn count_one_less(&mut self)
        ensures { self.new ≡ record self.old { living = self.old.living - 1 } }
    {
        self.living = self.living.saturating_sub(1);
    }
}
