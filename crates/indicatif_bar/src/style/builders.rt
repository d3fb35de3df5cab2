//! How a style is made.
ghost use Rattle.std.specs.Prelude.{◌≡◌, ◌⊎◌, ◌≤◌, None, Some, Err, map, length, codes, chars, string_bytes, IfOk, IfErr, IsTrue, IsFalse};
ghost use Rattle.std.specs.List.{list_all};
ghost use Rattle.indicatif_bar.specs.Bars.{is_bar_line};
ghost use Rattle.indicatif_text.specs.declared.template.TemplateError.{TemplateError};
ghost use Rattle.indicatif_text.specs.Template.{Parses, IsRefused, refusal_of};
ghost use Rattle.indicatif_term.specs.Lines.{line_text};
ghost use Rattle.indicatif_bar.specs.Trackers.{entries};
ghost use Rattle.indicatif_bar.specs.Styles.{lines, is_empty_style};
ghost use Rattle.indicatif_bar.specs.Builders.{characters_of, clusters_of, tick_fault, progress_fault, with_key, first_style};

use crate::progress::ProgressState;
use crate::spare::SpareLines;
use crate::style::steps::steps_of;
use crate::style::texts::Texts;
use crate::style::{ProgressStyle, clusters};
use crate::tracker::Tracks;
use indicatif_term::target::LineType;
use indicatif_text::columns::{Moment, Refusal, columns};
use indicatif_text::template::Template;
use std::alloc::Global;
use std::sync::Arc;

/// The default characters of a bar: a full block, and a light shade.
const CLUSTERS: [&str; 2] = ["█", "░"];

/// The default texts of a spinner, each a character.
pub const TICKS: &str = "⠁⠁⠉⠙⠚⠒⠂⠂⠒⠲⠴⠤⠄⠄⠤⠠⠠⠤⠦⠖⠒⠐⠐⠒⠓⠋⠉⠈⠈ ";

/// The default texts of a spinner, one by one.
const TICK_STRINGS: [&str; 30] = [
    "⠁", "⠁", "⠉", "⠙", "⠚", "⠒", "⠂", "⠂", "⠒", "⠲", "⠴", "⠤", "⠄", "⠄", "⠤", "⠠", "⠠", "⠤", "⠦",
    "⠖", "⠒", "⠐", "⠐", "⠒", "⠓", "⠋", "⠉", "⠈", "⠈", " ",
];

impl<K: Tracks> ProgressStyle<K> {
    /// A style with this template, with the characters `█░` for a bar, a spinner of dots, no trackers, colours off, and a tab width of 8.
    ///
    /// Refused: `Template` and `WidthTooLarge` as `Template::parse` says; `Memory`.
    ///
    /// # Examples
    ///
    /// `with_template(alloc, "{msg} {pos}/{len}")`.
    pub fn with_template(alloc: Global, text: &str) -> Result<ProgressStyle<K>, Refusal>
        ensures parts { IfOk result (λ style. Parses (chars text.now) style.parts) }
        ensures style { IfOk result (λ style. style ≡ first_style TICKS.now style.parts) }
        ensures refused { IfErr result (λ e. (e ≡ Refusal.Memory)
            ⊎ ((error : TemplateError) × IsRefused (chars text.now) error × (e ≡ refusal_of error))) }
    {
        let template = parsed(alloc, text)?;
        let style = ProgressStyle::first(alloc, template)?;
        Ok(style)
    }

    /// The style of a bar: `{wide_bar} {pos}/{len}`.
    ///
    /// Refused: `Memory`.
    pub fn default_bar(alloc: Global) -> Result<ProgressStyle<K>, Refusal>
        ensures parts { IfOk result (λ style. Parses (codes "{wide_bar} {pos}/{len}") style.parts) }
        ensures style { IfOk result (λ style. style ≡ first_style TICKS.now style.parts) }
        ensures memory { IfErr result (λ e. e ≡ Refusal.Memory) }
    {
        let template = Template::of_bar(alloc)?;
        let style = ProgressStyle::first(alloc, template)?;
        Ok(style)
    }

    /// The style of a spinner: `{spinner} {msg}`.
    ///
    /// Refused: `Memory`.
    pub fn default_spinner(alloc: Global) -> Result<ProgressStyle<K>, Refusal>
        ensures parts { IfOk result (λ style. Parses (codes "{spinner} {msg}") style.parts) }
        ensures style { IfOk result (λ style. style ≡ first_style TICKS.now style.parts) }
        ensures memory { IfErr result (λ e. e ≡ Refusal.Memory) }
    {
        let template = Template::of_spinner(alloc)?;
        let style = ProgressStyle::first(alloc, template)?;
        Ok(style)
    }

    /// The default style with a template.
    fn first(alloc: Global, template: Template) -> Result<ProgressStyle<K>, Refusal>
        ensures style { IfOk result (λ style. style ≡ first_style TICKS.now template) }
        ensures memory { IfErr result (λ e. e ≡ Refusal.Memory) }
    {
        let keys = Vec::new(alloc);
        let steps = steps_of(alloc, &template, keys.as_slice(), 8)?;
        Ok(ProgressStyle {
            alloc,
            template: Arc::new(alloc, template)?,
            steps,
            clusters: Texts::Fixed(&CLUSTERS),
            cell_columns: 1,
            tick_strings: Texts::Fixed(&TICK_STRINGS),
            keys,
            colours: false,
            tab: 8,
        })
    }

    /// Sets the template; characters, texts and trackers stay.
    ///
    /// Refused: `Template` and `WidthTooLarge` as `Template::parse` says; `Memory`. Then the style is dropped.
    pub fn template(mut self, text: &str) -> Result<ProgressStyle<K>, Refusal>
        ensures parts { IfOk result (λ style. Parses (chars text.now) style.parts) }
        ensures style { IfOk result (λ style. style ≡ record self { parts = style.parts }) }
        ensures refused { IfErr result (λ e. (e ≡ Refusal.Memory)
            ⊎ ((error : TemplateError) × IsRefused (chars text.now) error × (e ≡ refusal_of error))) }
    {
        let template = parsed(self.alloc, text)?;
        let steps = steps_of(self.alloc, &template, self.keys.as_slice(), self.tab)?;
        self.template = Arc::new(self.alloc, template)?;
        self.steps = steps;
        Ok(self)
    }

    /// Sets the spinner's texts: each character of `chars` is one; the last is that of a finished bar.
    ///
    /// Refused: `FewTicks` if there are fewer than two, which is tested before memory is taken; `Memory`. Then the style is dropped.
    pub fn tick_chars(mut self, chars: &str) -> Result<ProgressStyle<K>, Refusal>
        ensures style { IfOk result (λ style. style ≡ record self { tick_strings = characters_of chars.now }) }
        ensures taken { IfOk result (λ _. tick_fault (characters_of chars.now) ≡ None) }
        ensures refused { IfErr result (λ e. (e ≡ Refusal.Memory)
            ⊎ (tick_fault (characters_of chars.now) ≡ Some e)) }
        ensures memory { result ≡ Err Refusal.Memory → tick_fault (characters_of chars.now) ≡ None }
    {
        if clusters::has_few_characters(chars) {
            return Err(Refusal::FewTicks);
        }
        self.tick_strings = Texts::Own(clusters::characters_of(self.alloc, chars)?);
        Ok(self)
    }

    /// Sets the spinner's texts; the last is that of a finished bar.
    ///
    /// Refused: `FewTicks` if there are fewer than two, which is tested before memory is taken; `Memory`. Then the style is dropped.
    pub fn tick_strings(mut self, strings: &[&str]) -> Result<ProgressStyle<K>, Refusal>
        ensures style { IfOk result (λ style. style ≡ record self { tick_strings = map (λ text. text.now) strings.now }) }
        ensures taken { IfOk result (λ _. tick_fault (map (λ text. text.now) strings.now) ≡ None) }
        ensures refused { IfErr result (λ e. (e ≡ Refusal.Memory)
            ⊎ (tick_fault (map (λ text. text.now) strings.now) ≡ Some e)) }
        ensures memory { result ≡ Err Refusal.Memory → tick_fault (map (λ text. text.now) strings.now) ≡ None }
    {
        if clusters::are_few(strings) {
            return Err(Refusal::FewTicks);
        }
        self.tick_strings = Texts::Own(clusters::copied(self.alloc, strings)?);
        Ok(self)
    }

    /// Sets the characters of a bar, as grapheme clusters (Unicode, UAX #29): filled, the shades of a partly filled cell, empty.
    ///
    /// Refused: `FewProgressChars` if there are fewer than two, which is tested before memory is taken; otherwise `UnequalWidths` if they
    /// don't all take the same number of columns; otherwise `ZeroWidthChars` if they take none; `Memory`. Then the style is dropped.
    pub fn progress_chars(mut self, chars: &str) -> Result<ProgressStyle<K>, Refusal>
        ensures style { IfOk result (λ style. style ≡ record self { clusters = clusters_of chars.now }) }
        ensures taken { IfOk result (λ _. progress_fault (clusters_of chars.now) ≡ None) }
        ensures refused { IfErr result (λ e. (e ≡ Refusal.Memory)
            ⊎ (progress_fault (clusters_of chars.now) ≡ Some e)) }
        ensures memory { result ≡ Err Refusal.Memory → 2 ≤ length (clusters_of chars.now) }
    {
        if clusters::has_few_clusters(chars) {
            return Err(Refusal::FewProgressChars);
        }
        let clusters = clusters::clusters_of(self.alloc, chars)?;
        if let Some(refusal) = clusters::progress_fault(clusters.as_slice()) {
            return Err(refusal);
        }
        self.cell_columns = columns(clusters[0].as_str());
        self.clusters = Texts::Own(clusters);
        Ok(self)
    }

    /// Adds a tracker under your own key: `{name}` in the template shows its text. It comes before an earlier tracker with that name, and
    /// before the library's key with that name.
    ///
    /// Refused: `Memory`. Then the style and the tracker are dropped.
    pub fn with_key(self, name: &str, tracker: K) -> Result<ProgressStyle<K>, Refusal>
        ensures style { IfOk result (λ style. style ≡ record self { keys = with_key name.now tracker self.keys }) }
        ensures memory { IfErr result (λ e. e ≡ Refusal.Memory) }
    {
        let ProgressStyle {
            alloc,
            template,
            steps: _,
            clusters,
            cell_columns,
            tick_strings,
            mut keys,
            colours,
            tab,
        } = self;
        let own = String::from_str(alloc, name)?;
        keys.insert(0, (own, tracker))?;
        let steps = steps_of(alloc, &template, keys.as_slice(), tab)?;
        Ok(ProgressStyle {
            alloc,
            template,
            steps,
            clusters,
            cell_columns,
            tick_strings,
            keys,
            colours,
            tab,
        })
    }

    /// Sets whether the colours of the template are written. They are off at first: `machine::wants_colors` of the crate `indicatif` says
    /// whether a stream wants them. Never refused.
    pub fn with_colors(mut self, colours: bool) -> Result<ProgressStyle<K>, Refusal>
        ensures { result ≡ Ok (record self { colours = colours }) }
    {
        self.colours = colours;
        Ok(self)
    }

    /// A copy of the style.
    ///
    /// Refused: `Memory`.
    pub fn try_clone(&self) -> Result<ProgressStyle<K>, Refusal>
        ensures same { IfOk result (λ style. style ≡ self.now) }
        ensures memory { IfErr result (λ e. e ≡ Refusal.Memory) }
    {
        let keys = cloned_keys(self.alloc, self.keys.as_slice())?;
        let steps = steps_of(self.alloc, &self.template, keys.as_slice(), self.tab)?;
        Ok(ProgressStyle {
            alloc: self.alloc,
            template: Arc::try_clone(&self.template)?,
            steps,
            clusters: self.clusters.try_clone(self.alloc)?,
            cell_columns: self.cell_columns,
            tick_strings: self.tick_strings.try_clone(self.alloc)?,
            keys,
            colours: self.colours,
            tab: self.tab,
        })
    }

    /// The lines of a bar in this state at this moment, on a terminal of `width` columns.
    ///
    /// Refused: `Memory`; never if no part of the template shows anything: it has no line break, no key with a tracker, and all its texts
    /// are empty.
    pub fn lines(
        &self,
        state: &ProgressState,
        now: Moment,
        width: u16,
    ) -> Result<Vec<LineType>, Refusal>
        ensures lines { IfOk result (λ v. map line_text v.items ≡ lines K.means self.now state.now now width) }
        ensures kind { IfOk result (λ v. IsTrue (list_all is_bar_line v.items)) }
        ensures memory { IfErr result (λ e. (e ≡ Refusal.Memory) × IsFalse (is_empty_style self.now state.now)) }
    {
        let mut spare = SpareLines::new(self.alloc);
        self.lines_in(&mut spare, state, now, width)
    }
}

/// A style's template, or the refusal of its text.
fn parsed(alloc: Global, text: &str) -> Result<Template, Refusal>
    ensures parses { IfOk result (λ template. Parses (chars text.now) template) }
    ensures refused { IfErr result (λ e. (e ≡ Refusal.Memory)
        ⊎ ((error : TemplateError) × IsRefused (chars text.now) error × (e ≡ refusal_of error))) }
{
    match Template::parse(alloc, text) {
        Ok(template) => Ok(template),
        Err(error) => Err(Refusal::from(error)),
    }
}

/// Copies of the style's trackers, under the same names.
fn cloned_keys<K: Tracks>(alloc: Global, keys: &[(String, K)]) -> Result<Vec<(String, K)>, Refusal>
    ensures keys { IfOk result (λ v. entries v.items ≡ entries keys.now) }
    ensures memory { IfErr result (λ e. e ≡ Refusal.Memory) }
{
    let mut all = Vec::with_capacity(alloc, keys.len())?;
    'keys: for entry in keys {
        all.push(cloned_key(alloc, entry)?)?;
    }
    Ok(all)
}

/// A copy of one of the style's trackers, under the same name.
fn cloned_key<K: Tracks>(alloc: Global, key: &(String, K)) -> Result<(String, K), Refusal>
    ensures key { IfOk result (λ made. (string_bytes made.0 ≡ string_bytes key.now.0) × (made.1 ≡ key.now.1)) }
    ensures memory { IfErr result (λ e. e ≡ Refusal.Memory) }
{
    let name = String::from_str(alloc, key.0.as_str())?;
    Ok((name, key.1.track_clone()?))
}
