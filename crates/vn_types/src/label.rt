ghost use Rattle.std.specs.Prelude.{◌≡◌, IfOk, true};
ghost use Rattle.vn_types.specs.Words.{is_label};
ghost use Rattle.vn_types.specs.Paths.{is_path};
ghost use Rattle.vn_types.specs.PathTexts.{labels_in};

use crate::list::List;
use crate::memory::NoMemory;
use crate::octets::Octets;
use crate::path::count_dots;
use crate::text::cut;
use std::alloc::Global;
use std::marker::Model;

/// One label of a path: `[a-z][a-z0-9_-]{0,15}`, and not `host`.
#[derive(PartialEq, Eq, PartialOrd, Ord, Drop)]
pub struct Label {
    text: Octets,
}

impl Model for Label {
    ghost use Rattle.std.specs.Prelude.{List, ℕ, ◌≡◌, true};
    ghost use Rattle.vn_types.specs.Words.{is_label};

    ghost Value = { List ℕ };

    ghost inverse = { λ t. record { text = t } };

    ghost view = { λ a. a.text };

    ghost invariant = { λ a. is_label a.text ≡ true };
}

impl Label {
    /// The label that a text is.
    fn spelt(alloc: Global, text: &[u8]) -> Result<Label, NoMemory>
        requires { is_label text.now ≡ true }
        ensures { IfOk result (λ l. l ≡ text.now) }
    {
        let text = Octets::from_slice(alloc, text)?;
        Ok(Label { text })
    }

    /// The octets of the label.
    pub fn text(&self) -> &[u8]
        ensures text { result.now ≡ self.now }
        ensures label { is_label self.now ≡ true }
    {
        self.text.as_slice()
    }
}

/// The labels in the text of a path, from the top.
pub(crate) fn labels_in(alloc: Global, text: &[u8]) -> Result<List<Label>, NoMemory>
    requires { is_path (labels_in text.now) ≡ true }
    ensures { IfOk result (λ l. l ≡ labels_in text.now) }
{
    if text.is_empty() {
        return Ok(List::new(alloc));
    }
    let mut labels = List::with_capacity(alloc, count_dots(text) + 1)?;
    let mut rest = text;
    while let Some((piece, more)) = cut(rest, b'.') {
        let label = Label::spelt(alloc, piece)?;
        labels.push(label)?;
        rest = more;
    }
    let label = Label::spelt(alloc, rest)?;
    labels.push(label)?;
    Ok(labels)
}
