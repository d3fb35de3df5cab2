//! The lines of a style, laid out into one growing text.
ghost use Rattle.std.specs.Prelude.{◌≡◌, ◌++◌, ℕ, List, [], Some, map, string_bytes, true, if◌then◌else◌, OnOk, IfOk, IfErr, IsTrue, IsFalse, option_map, unwrap_or};
ghost use Rattle.std.specs.Option.{option_map_or, option_or};
ghost use Rattle.std.specs.List.{list_all, list_any, slice_get};
ghost use Rattle.indicatif_bar.specs.Bars.{is_bar_line};
ghost use Rattle.std.specs.Str.{trim_end};
ghost use Rattle.indicatif_term.specs.Lines.{line_text};
ghost use Rattle.indicatif_bar.specs.Tabs.{expanded};
ghost use Rattle.indicatif_bar.specs.Layout.{padded};
ghost use Rattle.indicatif_bar.specs.Styles.{key_text, wide_text, filled, with_fillers_as, lines_with, lines, columns_left, ends_in_filler, is_filler, is_empty_style};
ghost use Rattle.indicatif_bar.specs.Inside.Steps.{PutsSource, placeholder_layout, source_text, effect_text, wide_found};

use crate::progress::ProgressState;
use crate::scan::cut_at;
use crate::spare::SpareLines;
use crate::style::ProgressStyle;
use crate::style::filling::{Gap, ShownText, has_filler};
use crate::style::keys::Key;
use crate::style::padding::{AtWidth, push_padded};
use crate::style::steps::{
    BAR_COLUMNS, Placeholder, Source, Step, WideKey, literal_at, open_style,
};
use crate::tabs::push_expanded;
use crate::tracker::Tracks;
use indicatif_term::target::LineType;
use indicatif_text::columns::{Moment, Refusal};
use indicatif_text::template::{Alignment, Template};
use std::alloc::AllocError;
use std::mem::replace;

impl<K: Tracks> ProgressStyle<K> {
    /// Appends the text of a key in this state.
    fn push_key(
        &self,
        key: Key,
        placeholder: &Placeholder,
        state: &ProgressState,
        now: Moment,
        out: &mut String,
    ) -> Result<(), AllocError>
        ensures { OnOk result (string_bytes out.new ≡ string_bytes out.old
            ++ key_text K.means self.now state.now now (placeholder_layout placeholder.now) key) }
    {
        match key {
            Key::Bar(bar) => {
                let width = u64::from(placeholder.width.unwrap_or(BAR_COLUMNS));
                self.push_bar(bar, placeholder, state, width, out)?;
            }
            Key::WideBar(_) | Key::WideText(_) => out.push_str("\0")?,
            Key::Text(key) => out.push_str(self.shown_text(key, state))?,
            Key::Number(key) => match key.push(state, now, placeholder.width, out) {
                Ok(()) => {}
                Err(_) => return Err(AllocError),
            },
        }
        Ok(())
    }

    /// Appends the text of the tracker at a place, its tabs expanded; nothing if there is none.
    fn push_tracked(
        &self,
        place: usize,
        state: &ProgressState,
        now: Moment,
        spare: &mut SpareLines,
        out: &mut String,
    ) -> Result<(), AllocError>
        ensures { OnOk result (string_bytes out.new ≡ string_bytes out.old
            ++ option_map_or (λ entry. expanded self.now.tab (K.means.text entry.1 state.now now))
            (slice_get self.now.keys place) []) }
    {
        match self.keys.get(place) {
            Some(entry) => self.push_text_of(&entry.1, state, now, spare, out),
            None => Ok(()),
        }
    }

    /// Appends a tracker's text, its tabs expanded.
    fn push_text_of(
        &self,
        tracker: &K,
        state: &ProgressState,
        now: Moment,
        spare: &mut SpareLines,
        out: &mut String,
    ) -> Result<(), AllocError>
        ensures { OnOk result (string_bytes out.new ≡ string_bytes out.old
            ++ expanded self.now.tab (K.means.text tracker.now state.now now)) }
    {
        let mut text = spare.text();
        let Ok(()) = tracker.track_text(state, now, &mut text) else {
            return Err(AllocError);
        };
        push_expanded(text.as_str(), self.tab, out)?;
        spare.store_text(text);
        Ok(())
    }

    /// Appends the text of a placeholder, from its source.
    fn push_told(
        &self,
        placeholder: &Placeholder,
        state: &ProgressState,
        now: Moment,
        spare: &mut SpareLines,
        out: &mut String,
    ) -> Result<(), AllocError>
        ensures { OnOk result (string_bytes out.new ≡ string_bytes out.old
            ++ source_text K.means self.now state.now now (placeholder_layout placeholder.now) placeholder.now.source) }
    {
        match placeholder.source {
            Source::Tracker(place) => self.push_tracked(place, state, now, spare, out),
            Source::Known(key) => self.push_key(key, placeholder, state, now, out),
            Source::Nothing => Ok(()),
        }
    }

    /// Appends the text of a placeholder at its width, if it has one.
    fn push_sized(
        &self,
        placeholder: &Placeholder,
        state: &ProgressState,
        now: Moment,
        spare: &mut SpareLines,
        out: &mut String,
    ) -> Result<(), AllocError>
        ensures { let text = source_text K.means self.now state.now now (placeholder_layout placeholder.now) placeholder.now.source in
            OnOk result (string_bytes out.new ≡ string_bytes out.old
            ++ option_map_or (λ width. padded text width placeholder.now.align placeholder.now.truncate) placeholder.now.width text) }
    {
        let before = spare.set_aside(placeholder.width, out);
        self.push_told(placeholder, state, now, spare, out)?;
        let Some(before) = before else {
            return Ok(());
        };
        let text = replace(out, before.text);
        let place = AtWidth {
            width: usize::from(before.width),
            align: placeholder.align,
            truncate: placeholder.truncate,
        };
        push_padded(text.as_str(), place, out)?;
        spare.store_text(text);
        Ok(())
    }

    /// Appends the text of a placeholder, at its width and in its style.
    fn push_styled(
        &self,
        placeholder: &Placeholder,
        state: &ProgressState,
        now: Moment,
        spare: &mut SpareLines,
        out: &mut String,
    ) -> Result<(), AllocError>
        ensures { OnOk result (string_bytes out.new ≡ string_bytes out.old
            ++ effect_text K.means self.now state.now now (PutsSource placeholder.now.source (placeholder_layout placeholder.now))) }
    {
        let some = open_style(&placeholder.style, self.colours, out)?;
        self.push_sized(placeholder, state, now, spare, out)?;
        if some {
            out.push_str("\x1b[0m")?;
            return Ok(());
        }
        Ok(())
    }

    /// Appends what replaces each filler of a text with this gap.
    fn push_wide(
        &self,
        wide: WideKey<'_>,
        gap: Gap,
        state: &ProgressState,
        spare: &mut SpareLines,
        out: &mut String,
    ) -> Result<(), AllocError>
        ensures { (columns : ℕ) (text : List ℕ) → gap.columns ≡ columns_left columns text → gap.is_last ≡ ends_in_filler text →
            OnOk result (string_bytes out.new ≡ string_bytes out.old
            ++ wide_text self.now state.now columns text (wide_found wide.entry)) }
    {
        match wide {
            WideKey::Bar(bar, placeholder) => self.push_bar(
                bar,
                placeholder,
                state,
                gap.columns as u64,
                out,
            )?,
            WideKey::Text(key, placeholder) => push_in_gap(
                self.shown_text(key, state),
                placeholder.align,
                gap,
                spare,
                out,
            )?,
        }
        Ok(())
    }

    /// Appends a text with each of its fillers replaced, which have this gap.
    fn push_filled(
        &self,
        text: &str,
        wide: WideKey<'_>,
        gap: Gap,
        state: &ProgressState,
        spare: &mut SpareLines,
        out: &mut String,
    ) -> Result<(), AllocError>
        ensures { (columns : ℕ) → gap.columns ≡ columns_left columns text.now → gap.is_last ≡ ends_in_filler text.now →
            OnOk result (string_bytes out.new ≡ string_bytes out.old
            ++ with_fillers_as (wide_text self.now state.now columns text.now (wide_found wide.entry)) text.now) }
    {
        let mut rest = text;
        'fillers: while let Some((part, behind)) = cut_at(0, rest) {
            out.push_str(part)?;
            self.push_wide(wide, gap, state, spare, out)?;
            rest = behind;
        }
        out.push_str(rest)?;
        Ok(())
    }

    /// Appends the lines of a text, by the latest wide key.
    #[inline(always)]
    fn push_lines(
        &self,
        line: Line<'_>,
        state: &ProgressState,
        width: u16,
        spare: &mut SpareLines,
        lines: &mut Vec<LineType>,
    ) -> Result<(), AllocError>
        ensures lines { OnOk result (map line_text lines.new.items ≡ map line_text lines.old.items
            ++ lines_with self.now state.now width (option_map wide_found line.entry.wide) (string_bytes line.entry.text)) }
        ensures kind { IsTrue (list_all is_bar_line lines.old.items) → IsTrue (list_all is_bar_line lines.new.items) }
    {
        let shown = self.fill(line, state, width, spare)?;
        shown.push_lines(spare, lines)
    }

    /// The text of a line with its fillers replaced, by the latest wide key.
    #[inline(always)]
    fn fill(
        &self,
        line: Line<'_>,
        state: &ProgressState,
        width: u16,
        spare: &mut SpareLines,
    ) -> Result<ShownText, AllocError>
        ensures { IfOk result (λ shown. string_bytes shown.text
            ≡ filled self.now state.now width (option_map wide_found line.entry.wide) (string_bytes line.entry.text)) }
    {
        let Line { text, wide } = line;
        let Some(wide) = wide else {
            return Ok(ShownText::of(text));
        };
        if !has_filler(text.as_str()) {
            return Ok(ShownText::of(text));
        }
        let shown = self.fill_wide(text.as_str(), wide, state, width, spare)?;
        spare.store_text(text);
        Ok(shown)
    }

    /// A text with its fillers replaced. Bars in their place leave one line one line.
    fn fill_wide(
        &self,
        text: &str,
        wide: WideKey<'_>,
        state: &ProgressState,
        width: u16,
        spare: &mut SpareLines,
    ) -> Result<ShownText, AllocError>
        requires has_filler { IsTrue (list_any is_filler text.now) }
        ensures { IfOk result (λ shown. string_bytes shown.text ≡ filled self.now state.now width (Some (wide_found wide.entry)) text.now) }
    {
        let gap = Gap::of(text, width);
        let mut filled = spare.text();
        self.push_filled(text, wide, gap, state, spare, &mut filled)?;
        let _read = self.tab;
        match wide {
            WideKey::Bar(_, _) => Ok(ShownText {
                text: filled,
                has_break: gap.has_break,
            }),
            WideKey::Text(_, _) => Ok(ShownText::of(filled)),
        }
    }

    /// The style's lines, laid out in memory of `spare`. If the style shows nothing, there are none.
    pub(crate) fn lines_in(
        &self,
        spare: &mut SpareLines,
        state: &ProgressState,
        now: Moment,
        width: u16,
    ) -> Result<Vec<LineType>, Refusal>
        ensures lines { IfOk result (λ v. map line_text v.items
            ≡ lines K.means self.now state.now now width) }
        ensures kind { IfOk result (λ v. IsTrue (list_all is_bar_line v.items)) }
        ensures memory { IfErr result (λ e. (e ≡ Refusal.Memory) × IsFalse (is_empty_style self.now state.now)) }
    {
        let Ok(lines) = self.laid_out(spare, state, now, width) else {
            if self.is_empty(state) {
                return Ok(Vec::new(self.alloc));
            }
            return Err(Refusal::Memory);
        };
        Ok(lines)
    }

    /// The style's lines, laid out step by step.
    fn laid_out(
        &self,
        spare: &mut SpareLines,
        state: &ProgressState,
        now: Moment,
        width: u16,
    ) -> Result<Vec<LineType>, AllocError>
        ensures lines { IfOk result (λ v. map line_text v.items
            ≡ lines K.means self.now state.now now width) }
        ensures kind { IfOk result (λ v. IsTrue (list_all is_bar_line v.items)) }
    {
        let mut lines = spare.lines();
        let mut line = Line {
            text: spare.text(),
            wide: None,
        };
        let template: &Template = &self.template;
        for step in &self.steps {
            match step {
                Step::Text(text) => line.text.push_str(text.as_str())?,
                Step::Literal(place) => line.text.push_str(literal_at(template, *place))?,
                Step::Break => {
                    let ended = line.end(spare.text());
                    self.push_lines(ended, state, width, spare, &mut lines)?;
                }
                Step::Placeholder(placeholder) => {
                    line.remember(placeholder.wide());
                    self.push_styled(placeholder, state, now, spare, &mut line.text)?;
                }
            }
        }
        if line.text.as_str().is_empty() {
            spare.store_text(line.text);
            return Ok(lines);
        }
        self.push_lines(line, state, width, spare, &mut lines)?;
        Ok(lines)
    }
}

/// The current line: its text, and the latest wide key.
#[derive(Drop)]
struct Line<'a> {
    text: String,
    wide: Option<WideKey<'a>>,
}

impl<'a> Line<'a> {
    /// Takes the wide key of a placeholder, if it is one.
    fn remember(&mut self, wide: Option<WideKey<'a>>)
        ensures { self.new ≡ record self.old { wide = option_or wide.entry self.old.wide } }
    {
        if let Some(wide) = wide {
            self.wide = Some(wide);
        }
    }

    /// The line that was laid out, finished; the next one begins in this memory.
    fn end(&mut self, room: String) -> Line<'a>
        ensures ended { result ≡ self.old }
        ensures next { self.new ≡ record self.old { text = room } }
    {
        Line {
            text: replace(&mut self.text, room),
            wide: self.wide,
        }
    }
}

/// Appends a text at a gap's columns; if the gap ends its line's text, without white space at its end.
fn push_in_gap(
    text: &str,
    align: Alignment,
    gap: Gap,
    spare: &mut SpareLines,
    out: &mut String,
) -> Result<(), AllocError>
    ensures { let shown = padded text.now gap.columns align true in
        OnOk result (string_bytes out.new ≡ string_bytes out.old
        ++ (if gap.is_last then trim_end shown else shown)) }
{
    let place = AtWidth {
        width: gap.columns,
        align,
        truncate: true,
    };
    if !gap.is_last {
        push_padded(text, place, out)?;
        return Ok(());
    }
    let mut shown = spare.text();
    push_padded(text, place, &mut shown)?;
    out.push_str(shown.as_str().trim_end())?;
    spare.store_text(shown);
    Ok(())
}
