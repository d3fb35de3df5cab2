//! The lists of texts of a style: of a spinner, and of a bar's cells.
ghost use Rattle.std.specs.Prelude.{◌≡◌, ◌<◌, [], length, map, IfOk, IfErr};
ghost use Rattle.std.specs.List.{slice_index_or};
ghost use Rattle.indicatif_bar.specs.Inside.Texts.{texts_in};

use crate::style::clusters::cloned;
use indicatif_text::columns::Refusal;
use std::alloc::Global;

/// A list of texts.
#[derive(Drop)]
pub(crate) enum Texts {
    /// Built-in texts, which take no memory.
    Fixed(&'static [&'static str]),
    /// Copies of texts.
    Own(Vec<String>),
}

impl Texts {
    /// How many texts the list has.
    pub(crate) fn len(&self) -> usize
        ensures { result ≡ length (texts_in self.now) }
    {
        match self {
            Texts::Fixed(texts) => texts.len(),
            Texts::Own(texts) => texts.len(),
        }
    }

    /// The text at a place of the list.
    pub(crate) fn at(&self, place: usize) -> &str
        requires within { place < length (texts_in self.now) }
        ensures { result.now ≡ slice_index_or (texts_in self.now) place [] }
    {
        match self {
            Texts::Fixed(texts) => fixed_at(texts, place),
            Texts::Own(texts) => texts[place].as_str(),
        }
    }

    /// A copy of the list of texts. Built-in ones are never refused.
    pub(crate) fn try_clone(&self, alloc: Global) -> Result<Texts, Refusal>
        ensures same { IfOk result (λ other. texts_in other ≡ texts_in self.now) }
        ensures memory { IfErr result (λ e. e ≡ Refusal.Memory) }
    {
        match self {
            Texts::Fixed(texts) => Ok(Texts::Fixed(*texts)),
            Texts::Own(texts) => Ok(Texts::Own(cloned(alloc, texts.as_slice())?)),
        }
    }
}

/// The built-in text at a place of such a list.
fn fixed_at(texts: &[&'static str], place: usize) -> &'static str
    requires within { place < length texts.now }
    ensures { result.now ≡ slice_index_or (map (λ text. text.now) texts.now) place [] }
{
    texts[place]
}
