//! Lines of a text, and what replaces a wide key's fillers.
ghost use Rattle.std.specs.Prelude.{◌≡◌, ◌++◌, ◌∷◌, [], false, find, map, string_bytes, OnOk, IsTrue};
ghost use Rattle.std.specs.Option.{option_map_or};
ghost use Rattle.std.specs.List.{list_all, list_any, slice_get, slice_split};
ghost use Rattle.indicatif_bar.specs.Bars.{is_bar_line};
ghost use Rattle.indicatif_term.specs.Lines.{line_text};
ghost use Rattle.indicatif_bar.specs.Layout.{text_columns};
ghost use Rattle.indicatif_bar.specs.Styles.{is_filler, is_newline, ends_in_filler, columns_left};

use crate::scan::{cut_at, has_byte};
use crate::spare::SpareLines;
use indicatif_term::target::LineType;
use indicatif_text::columns::columns;
use std::alloc::AllocError;

/// Whether a text has a filler.
pub(crate) fn has_filler(text: &str) -> bool
    ensures { result ≡ list_any is_filler text.now }
{
    has_byte(0, text)
}

/// Whether a text has a line break.
pub(crate) fn has_break(text: &str) -> bool
    ensures { result ≡ list_any is_newline text.now }
{
    has_byte(b'\n', text)
}

/// Where a text's fillers stand: how many columns their line leaves free, whether one ends the text, and whether it has a line break.
#[derive(Clone, Copy, Drop)]
pub(crate) struct Gap {
    pub(crate) columns: usize,
    pub(crate) is_last: bool,
    pub(crate) has_break: bool,
}

impl Gap {
    /// The gap of a text that has a filler, on a terminal of `width` columns.
    pub(crate) fn of(text: &str, width: u16) -> Gap
        requires has_filler { IsTrue (list_any is_filler text.now) }
        ensures columns { result.columns ≡ columns_left width text.now }
        ensures is_last { result.is_last ≡ ends_in_filler text.now }
        ensures has_break { result.has_break ≡ list_any is_newline text.now }
    {
        let has_break = has_break(text);
        Gap {
            columns: usize::from(width).saturating_sub(filler_line_columns(text, has_break)),
            is_last: ends_in_filler(text),
            has_break,
        }
    }
}

/// Whether a filler ends a text.
fn ends_in_filler(text: &str) -> bool
    ensures { result ≡ ends_in_filler text.now }
{
    match text.as_bytes().last() {
        Some(b) => *b == 0,
        None => false,
    }
}

/// The columns of the first line with a filler.
fn filler_line_columns(text: &str, has_break: bool) -> usize
    requires has_filler { IsTrue (list_any is_filler text.now) }
    requires has_break { has_break ≡ list_any is_newline text.now }
    ensures { result ≡ option_map_or text_columns (find (list_any is_filler) (slice_split is_newline text.now)) 0 }
{
    if !has_break {
        return columns_behind_filler(text);
    }
    let mut rest = text;
    'lines: while let Some((line, behind)) = cut_at(b'\n', rest) {
        if has_filler(line) {
            return columns(line);
        }
        rest = behind;
    }
    if has_filler(rest) { columns(rest) } else { 0 }
}

/// The columns of a text. A filler at its front takes none, so it isn't measured.
fn columns_behind_filler(text: &str) -> usize
    ensures { result ≡ text_columns text.now }
{
    if begins_with_filler(text) {
        let (_, behind) = text.split_at(1);
        return columns(behind);
    }
    columns(text)
}

/// Whether a filler begins a text.
fn begins_with_filler(text: &str) -> bool
    ensures { result ≡ option_map_or is_filler (slice_get text.now 0) false }
{
    match text.as_bytes().first() {
        Some(b) => *b == 0,
        None => false,
    }
}

/// A text as it is shown, and whether it has a line break. Without one it is itself one line.
#[derive(Drop)]
pub(crate) struct ShownText {
    pub(crate) text: String,
    pub(crate) has_break: bool,
    pub(crate) ghost one_line: { has_break ≡ false → list_any is_newline (string_bytes text) ≡ false },
}

impl ShownText {
    /// This text, searched for a line break.
    #[inline(always)]
    pub(crate) fn of(text: String) -> ShownText
        ensures { string_bytes result.text ≡ string_bytes text }
    {
        let has_break = has_break(text.as_str());
        ShownText { text, has_break }
    }

    /// Appends the lines of the text, in memory of `spare`.
    #[inline(always)]
    pub(crate) fn push_lines(
        self,
        spare: &mut SpareLines,
        lines: &mut Vec<LineType>,
    ) -> Result<(), AllocError>
        ensures lines { OnOk result (map line_text lines.new.items
            ≡ map line_text lines.old.items ++ slice_split is_newline (string_bytes self.text)) }
        ensures kind { IsTrue (list_all is_bar_line lines.old.items) → IsTrue (list_all is_bar_line lines.new.items) }
    {
        let ShownText { text, has_break } = self;
        if !has_break {
            return push_line(text, lines);
        }
        push_pieces(text.as_str(), spare, lines)?;
        spare.store_text(text);
        Ok(())
    }
}

/// Appends the lines of a text, each copied.
fn push_pieces(
    text: &str,
    spare: &mut SpareLines,
    lines: &mut Vec<LineType>,
) -> Result<(), AllocError>
    ensures lines { OnOk result (map line_text lines.new.items
        ≡ map line_text lines.old.items ++ slice_split is_newline text.now) }
    ensures kind { IsTrue (list_all is_bar_line lines.old.items) → IsTrue (list_all is_bar_line lines.new.items) }
{
    let mut rest = text;
    while let Some((piece, behind)) = cut_at(b'\n', rest) {
        push_copied(piece, spare, lines)?;
        rest = behind;
    }
    push_copied(rest, spare, lines)?;
    Ok(())
}

/// Appends a line, copied into memory of `spare`.
fn push_copied(
    text: &str,
    spare: &mut SpareLines,
    lines: &mut Vec<LineType>,
) -> Result<(), AllocError>
    ensures lines { OnOk result (map line_text lines.new.items ≡ map line_text lines.old.items ++ text.now ∷ []) }
    ensures kind { IsTrue (list_all is_bar_line lines.old.items) → IsTrue (list_all is_bar_line lines.new.items) }
{
    let mut line = spare.text();
    line.push_str(text)?;
    push_line(line, lines)?;
    Ok(())
}

/// Appends a line to the lines of a text.
#[inline(always)]
pub(crate) fn push_line(text: String, lines: &mut Vec<LineType>) -> Result<(), AllocError>
    ensures lines { OnOk result (map line_text lines.new.items ≡ map line_text lines.old.items ++ string_bytes text ∷ []) }
    ensures kind { IsTrue (list_all is_bar_line lines.old.items) → IsTrue (list_all is_bar_line lines.new.items) }
{
    lines.push(LineType::Bar(text))?;
    Ok(())
}
