//! A text with its tabs expanded beside it.
ghost use Rattle.std.specs.Prelude.{◌≡◌, [], string_bytes, IfOk, OnOk, OnErr, IsTrue};
ghost use Rattle.indicatif_bar.specs.Tabs.{TabbedText, expanded, has_tab, is_some_text};
ghost use Rattle.indicatif_bar.specs.Inside.TabbedTexts.{expanded_text};

use crate::tabs;
use std::alloc::{AllocError, Global};
use std::marker::Model;

/// A text and its tab width. The text with its tabs expanded is kept; a text without tabs is kept once.
#[derive(Drop)]
pub(crate) struct TabbedText {
    text: String,
    has_tabs: bool,
    /// The text with its tabs expanded, if it has any; otherwise memory for another one.
    with_spaces: String,
    tab: usize,
}

/// Contracts see the text as it was set, and the tab width.
impl Model for TabbedText {
    ghost use Rattle.std.specs.Prelude.{◌≡◌, if◌then◌else◌, string_bytes};
    ghost use Rattle.indicatif_bar.specs.Tabs.{TabbedText, expanded, has_tab};

    ghost Value = { TabbedText };

    ghost view = { λ t. record { text = string_bytes t.text; tab = t.tab } };

    ghost invariant = { λ t. (t.has_tabs ≡ has_tab (string_bytes t.text))
        × ((if t.has_tabs then string_bytes t.with_spaces else string_bytes t.text) ≡ expanded t.tab (string_bytes t.text)) };
}

impl TabbedText {
    /// An empty text, with this tab width. Takes no memory.
    pub(crate) fn new(alloc: Global, tab: usize) -> TabbedText
        ensures { result ≡ record { text = []; tab = tab } }
    {
        TabbedText {
            text: String::new(alloc),
            has_tabs: false,
            with_spaces: String::new(alloc),
            tab,
        }
    }

    /// Takes another text, with its tabs expanded. An empty one is never refused; if one is, the text is empty.
    pub(crate) fn refill(&mut self, text: &str, tab: usize) -> Result<(), AllocError>
        ensures text { OnOk result (self.new ≡ record { text = text.now; tab = tab }) }
        ensures needed { OnErr result (IsTrue (is_some_text text.now)) }
    {
        self.tab = tab;
        self.has_tabs = false;
        self.text.clear();
        let has_tabs = tabs::has_tab(text);
        if has_tabs {
            self.with_spaces.clear();
            tabs::push_expanded(text, tab, &mut self.with_spaces)?;
        }
        self.text.push_str(text)?;
        self.has_tabs = has_tabs;
        Ok(())
    }

    /// The text with its tabs expanded.
    pub(crate) fn as_expanded(&self) -> &str
        ensures { result.now ≡ expanded_text self.now }
    {
        if self.has_tabs {
            return self.with_spaces.as_str();
        }
        self.text.as_str()
    }

    /// The text with another tab width; it may be anything if the text has no tab, and is never refused then.
    pub(crate) fn at_width(&self, alloc: Global, tab: usize) -> Result<String, AllocError>
        ensures needed { OnErr result (IsTrue (has_tab self.now.text)) }
        ensures text { IfOk result (λ s. IsTrue (has_tab self.now.text) → string_bytes s ≡ expanded tab self.now.text) }
    {
        let mut with_spaces = String::new(alloc);
        if self.has_tabs {
            tabs::push_expanded(self.text.as_str(), tab, &mut with_spaces)?;
        }
        Ok(with_spaces)
    }

    /// Takes the text with another tab width.
    pub(crate) fn put_width(&mut self, with_spaces: String, tab: usize)
        requires { IsTrue (has_tab self.old.text) → string_bytes with_spaces ≡ expanded tab self.old.text }
        ensures { self.new ≡ record self.old { tab = tab } }
    {
        if self.has_tabs {
            self.with_spaces = with_spaces;
        }
        self.tab = tab;
    }

    /// A copy of the text, and of the one with its tabs expanded.
    pub(crate) fn try_clone(&self, alloc: Global) -> Result<TabbedText, AllocError>
        ensures { IfOk result (λ other. other ≡ self.now) }
    {
        Ok(TabbedText {
            text: String::from_str(alloc, self.text.as_str())?,
            has_tabs: self.has_tabs,
            with_spaces: String::from_str(alloc, self.with_spaces.as_str())?,
            tab: self.tab,
        })
    }
}
