ghost use Rattle.std.specs.Prelude.{◌≡◌, ◌↔◌, ◌+◌, ◌≤◌, ◌==◌, count_by, List, ℕ, [], IsTrue, ◌++◌, length, IfOk, Some, true, refl};
ghost use Rattle.std.specs.Cmp.{partial_equiv_from_equiv};
ghost use Rattle.vn_types.specs.declared.path_text.TheConstants.{MOST_LABELS};
ghost use Rattle.vn_types.specs.Octets.{dot};
ghost use Rattle.vn_types.specs.Paths.{path_eq, path_cmp, path_text, glued, is_path, is_under, parent};
ghost use Rattle.vn_types.specs.PathTexts.{labels_in, before_last_dot, is_text_under};
ghost use Rattle.vn_types.specs.PathWords.{text_order};
ghost use Rattle.vn_types.specs.PathOrder.{path_total, path_equiv, path_po, path_ties};

use crate::label::{Label, labels_in};
use crate::list::List;
use crate::memory::NoMemory;
use crate::octets::Octets;
use std::alloc::Global;
use std::cmp::Ordering;
use std::marker::Model;

/// The path of a jail: `host`, or 1 to 8 labels with dots between (jail(8), "Hierarchical Jails").
/// It is kept as its text, by which paths are ordered, and as no octets for host.
#[derive(Drop)]
pub struct Path {
    text: Octets,
}

impl Model for Path {
    ghost use Rattle.std.specs.Prelude.{◌≡◌, true, List, ℕ};
    ghost use Rattle.vn_types.specs.Paths.{is_path};
    ghost use Rattle.vn_types.specs.PathTexts.{labels_in};

    ghost Value = { List (List ℕ) };

    ghost view = { λ a. labels_in a.text };

    ghost invariant = { λ a. is_path (labels_in a.text) ≡ true };
}

impl PartialEq for Path {
    ghost eq = { path_eq };

    ghost laws = { partial_equiv_from_equiv path_equiv };

    fn eq(&self, other: &Path) -> bool {
        self.text == other.text
    }
}

impl Eq for Path {
    ghost laws = { path_equiv };
}

impl PartialOrd for Path {
    ghost partial_cmp = { λ a b. Some (path_cmp a b) };

    ghost laws = { path_po };

    fn partial_cmp(&self, other: &Path) -> Option<Ordering> {
        Some(self.cmp(other))
    }
}

impl Ord for Path {
    ghost cmp = { path_cmp };

    ghost total = { path_total };

    ghost matches_partial_cmp = { λ a b. refl };

    ghost matches_eq = { path_ties };

    fn cmp(&self, other: &Path) -> Ordering
        ensures by_labels { result ≡ path_cmp self.now other.now }
        ensures by_text { result ≡ text_order self.now other.now }
    {
        self.text.cmp(&other.text)
    }
}

impl Path {
    /// The path of the host. Takes no memory.
    pub fn host(alloc: Global) -> Path
        ensures { result ≡ [] }
    {
        Path {
            text: Octets::new(alloc),
        }
    }

    /// The path whose labels are in a text.
    pub(crate) fn spelt(alloc: Global, text: &[u8]) -> Result<Path, NoMemory>
        requires { is_path (labels_in text.now) ≡ true }
        ensures { IfOk result (λ p. p ≡ labels_in text.now) }
    {
        let text = Octets::from_slice(alloc, text)?;
        Ok(Path { text })
    }

    /// The path as a user writes it.
    pub(crate) fn text(&self) -> &[u8]
        ensures text { result.now ≡ path_text self.now }
        ensures path { is_path self.now ≡ true }
    {
        if self.text.as_slice().is_empty() {
            return b"host";
        }
        self.text.as_slice()
    }

    /// The same path once more.
    pub fn copy(&self) -> Result<Path, NoMemory>
        ensures { IfOk result (λ p. p ≡ self.now) }
    {
        let text = self.text.copy()?;
        Ok(Path { text })
    }

    /// The path above it, which is host for a path of one label and for host.
    pub fn parent(&self) -> Result<Path, NoMemory>
        ensures { IfOk result (λ p. p ≡ parent self.now) }
    {
        Path::spelt(self.text.allocator(), before_last_dot(self.text.as_slice()))
    }

    /// The number of labels.
    pub fn depth(&self) -> u64
        ensures depth { result ≡ length self.now }
        ensures most { result ≤ MOST_LABELS }
        ensures path { is_path self.now ≡ true }
    {
        count_labels(self.text.as_slice())
    }

    /// The labels, from the top.
    pub fn labels(&self) -> Result<List<Label>, NoMemory>
        ensures labels { IfOk result (λ l. l ≡ self.now) }
        ensures path { is_path self.now ≡ true }
    {
        labels_in(self.text.allocator(), self.text.as_slice())
    }

    /// Whether this path is the other one or below it.
    pub fn is_under(&self, other: &Path) -> bool
        ensures test { result ≡ is_under self.now other.now }
        ensures below { IsTrue result ↔ ((rest : List (List ℕ)) × (self.now ≡ other.now ++ rest)) }
    {
        is_text_under(self.text.as_slice(), other.text.as_slice())
    }
}

/// The path that `rest` names as it is seen from `base`.
pub fn join(alloc: Global, base: &Path, rest: &Path) -> Result<Path, NoMemory>
    requires { length base.now + length rest.now ≤ MOST_LABELS }
    ensures { IfOk result (λ p. p ≡ base.now ++ rest.now) }
{
    let text = glue(alloc, base.text.as_slice(), rest.text.as_slice())?;
    Ok(Path { text })
}

/// Two texts with a dot between, where neither is empty.
fn glue(alloc: Global, first: &[u8], second: &[u8]) -> Result<Octets, NoMemory>
    ensures { IfOk result (λ t. t ≡ glued first.now second.now) }
{
    if first.is_empty() {
        return Octets::from_slice(alloc, second);
    }
    if second.is_empty() {
        return Octets::from_slice(alloc, first);
    }
    let mut text = Octets::with_capacity(alloc, first.len() + 1 + second.len())?;
    text.extend(first)?;
    text.extend(b".")?;
    text.extend(second)?;
    Ok(text)
}

/// The number of labels in a text.
fn count_labels(text: &[u8]) -> u64
    ensures { result ≡ length (labels_in text.now) }
{
    if text.is_empty() {
        return 0;
    }
    count_dots(text) as u64 + 1
}

/// The number of dots in a text.
pub(crate) fn count_dots(text: &[u8]) -> usize
    ensures { result ≡ count_by (λ c. c == dot) text.now }
{
    text.iter().filter(|c| **c == b'.').count()
}

/// The text before its last dot, and none where it has no dot.
fn before_last_dot(text: &[u8]) -> &[u8]
    ensures { result.now ≡ before_last_dot text.now }
{
    let mut rest = text;
    while let Some((last, front)) = rest.split_last() {
        if *last == b'.' {
            return front;
        }
        rest = front;
    }
    rest
}

/// Whether the labels of the first text begin with those of the second.
fn is_text_under(text: &[u8], above: &[u8]) -> bool
    ensures { result ≡ is_text_under text.now above.now }
{
    if above.is_empty() {
        return true;
    }
    match text.strip_prefix(above) {
        Some([]) => true,
        Some([first, ..]) => *first == b'.',
        None => false,
    }
}
