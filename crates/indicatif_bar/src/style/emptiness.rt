//! Whether a style shows nothing.
ghost use Rattle.std.specs.Prelude.{◌≡◌, ◌&&◌};
ghost use Rattle.indicatif_bar.specs.Styles.{is_bare_layout, is_empty_style};
ghost use Rattle.indicatif_bar.specs.Inside.Steps.{effect_of, placeholder_layout, is_empty_source, is_empty_effect};

use crate::progress::ProgressState;
use crate::style::ProgressStyle;
use crate::style::keys::Key;
use crate::style::steps::{Placeholder, Source, Step, literal_at};
use crate::tracker::Tracks;
use indicatif_text::template::Template;

impl<K: Tracks> ProgressStyle<K> {
    /// Whether no part of the template shows anything. For most templates their first part decides.
    pub(crate) fn is_empty(&self, state: &ProgressState) -> bool
        ensures { result ≡ is_empty_style self.now state.now }
    {
        let template: &Template = &self.template;
        for step in &self.steps {
            if !self.is_empty_step(step, template, state) {
                return false;
            }
        }
        true
    }

    /// Whether a step writes nothing.
    fn is_empty_step(&self, step: &Step, template: &Template, state: &ProgressState) -> bool
        ensures { result ≡ is_empty_effect self.now state.now (effect_of template.now step.now) }
    {
        match step {
            Step::Text(text) => text.as_str().is_empty(),
            Step::Literal(place) => literal_at(template, *place).is_empty(),
            Step::Break => false,
            Step::Placeholder(placeholder) => self.is_empty_placeholder(placeholder, state),
        }
    }

    /// Whether a placeholder writes nothing.
    fn is_empty_placeholder(&self, placeholder: &Placeholder, state: &ProgressState) -> bool
        ensures { let layout = placeholder_layout placeholder.now in
            result ≡ (is_bare_layout self.now.colours layout && is_empty_source self.now state.now layout placeholder.now.source) }
    {
        if !placeholder.is_bare(self.colours) {
            return false;
        }
        match placeholder.source {
            Source::Known(Key::Bar(_)) => placeholder.is_bare_bar(self.colours),
            Source::Known(Key::Text(key)) => self.shown_text(key, state).is_empty(),
            Source::Nothing => true,
            Source::Known(_) | Source::Tracker(_) => false,
        }
    }
}
