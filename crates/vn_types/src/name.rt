ghost use Rattle.std.specs.Prelude.{◌≡◌, IfOk, Some, refl, true};
ghost use Rattle.std.specs.Str.{bytes_eq};
ghost use Rattle.std.specs.Ordering.{nat_cmp};
ghost use Rattle.std.specs.Cmp.Lexicographic.{slice_cmp, nat_list_cmp_total, nat_list_eq_equiv};
ghost use Rattle.std.specs.Cmp.{partial_equiv_from_equiv};
ghost use Rattle.vn_types.specs.OctetOrder.{octets_po, octets_ties};
ghost use Rattle.vn_types.specs.Words.{is_name, is_sock_name};
ghost use Rattle.vn_types.specs.NameWords.{name_of, sock_name_of};

use crate::memory::NoMemory;
use crate::octets::Octets;
use crate::words::{is_name, is_sock_name};
use std::alloc::Global;
use std::cmp::Ordering;
use std::marker::Model;

/// The name of a variable or a constructor: `[a-z][a-z0-9_.]{0,63}`.
#[derive(Drop)]
pub struct Name {
    text: NameText,
}

/// The name of a socket: `[a-z][a-z0-9]{0,15}`.
#[derive(PartialEq, Eq, PartialOrd, Ord, Drop)]
pub struct SockName {
    text: Octets,
}

/// The text of a name that was read, or of one that the program has.
#[derive(Drop)]
enum NameText {
    Read(Octets),
    Fixed(&'static [u8]),
}

impl Model for Name {
    ghost use Rattle.std.specs.Prelude.{List, ℕ, ◌≡◌, true};
    ghost use Rattle.vn_types.specs.Words.{is_name};

    ghost Value = { List ℕ };

    ghost use Rattle.vn_types.specs.NameTexts.{octets_of};

    ghost view = { λ a. octets_of a.text };

    ghost invariant = { λ a. is_name (octets_of a.text) ≡ true };
}

impl Model for SockName {
    ghost use Rattle.std.specs.Prelude.{List, ℕ, ◌≡◌, true};
    ghost use Rattle.vn_types.specs.Words.{is_sock_name};

    ghost Value = { List ℕ };

    ghost view = { λ a. a.text };

    ghost invariant = { λ a. is_sock_name a.text ≡ true };

    ghost inverse = { λ t. record { text = t } };
}

impl PartialEq for Name {
    ghost eq = { bytes_eq };

    ghost laws = { partial_equiv_from_equiv nat_list_eq_equiv };

    fn eq(&self, other: &Name) -> bool {
        self.text() == other.text()
    }
}

impl Eq for Name {
    ghost laws = { nat_list_eq_equiv };
}

impl PartialOrd for Name {
    ghost partial_cmp = { λ a b. Some (slice_cmp nat_cmp a b) };

    ghost laws = { octets_po };

    fn partial_cmp(&self, other: &Name) -> Option<Ordering> {
        Some(self.cmp(other))
    }
}

impl Ord for Name {
    ghost cmp = { slice_cmp nat_cmp };

    ghost total = { nat_list_cmp_total };

    ghost matches_partial_cmp = { λ a b. refl };

    ghost matches_eq = { octets_ties };

    fn cmp(&self, other: &Name) -> Ordering {
        self.text().cmp(other.text())
    }
}

impl Name {
    /// The name that a text is.
    #[tactic(auto, unfolding(crate::specs::NameWords::name_of))]
    pub fn read(alloc: Global, text: &[u8]) -> Result<Option<Name>, NoMemory>
        ensures { IfOk result (λ r. r ≡ name_of text.now) }
    {
        if !is_name(text) {
            return Ok(None);
        }
        let text = NameText::Read(Octets::from_slice(alloc, text)?);
        Ok(Some(Name { text }))
    }

    /// The name that a text of the program is. Takes no memory.
    #[tactic(auto, unfolding(crate::specs::NameWords::name_of))]
    pub fn fixed(text: &'static [u8]) -> Option<Name>
        ensures { result ≡ name_of text.now }
    {
        if !is_name(text) {
            return None;
        }
        let text = NameText::Fixed(text);
        Some(Name { text })
    }

    /// The octets of the name.
    pub fn text(&self) -> &[u8]
        ensures text { result.now ≡ self.now }
        ensures name { is_name self.now ≡ true }
    {
        match &self.text {
            NameText::Read(text) => text.as_slice(),
            NameText::Fixed(text) => text,
        }
    }

    /// The same name once more.
    pub fn copy(&self) -> Result<Name, NoMemory>
        ensures { IfOk result (λ n. n ≡ self.now) }
    {
        let text = match &self.text {
            NameText::Read(text) => NameText::Read(text.copy()?),
            NameText::Fixed(text) => NameText::Fixed(text),
        };
        Ok(Name { text })
    }
}

impl SockName {
    /// The name that a text is.
    #[tactic(auto, unfolding(crate::specs::NameWords::sock_name_of))]
    pub fn read(alloc: Global, text: &[u8]) -> Result<Option<SockName>, NoMemory>
        ensures { IfOk result (λ r. r ≡ sock_name_of text.now) }
    {
        if !is_sock_name(text) {
            return Ok(None);
        }
        let text = Octets::from_slice(alloc, text)?;
        Ok(Some(SockName { text }))
    }

    /// The octets of the name.
    pub fn text(&self) -> &[u8]
        ensures text { result.now ≡ self.now }
        ensures name { is_sock_name self.now ≡ true }
    {
        self.text.as_slice()
    }

    /// The same name once more.
    pub fn copy(&self) -> Result<SockName, NoMemory>
        ensures { IfOk result (λ n. n ≡ self.now) }
    {
        let text = self.text.copy()?;
        Ok(SockName { text })
    }
}
