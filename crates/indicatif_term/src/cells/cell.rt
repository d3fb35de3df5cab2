//! A cell of a row as it is stored: a few bytes, and no memory of its own. Its joiners are in the row's list of joiners.
ghost use Rattle.std.specs.Prelude.{◌≡◌, ◌++◌, [], IfOk, IfErr, OnOk, OnErr, encode_utf8_all, string_bytes, option_to_list};
ghost use Rattle.indicatif_text.specs.Columns.{Blank, Written, Continued};
ghost use Rattle.indicatif_term.specs.Screen.{is_continued};
ghost use Rattle.indicatif_term.specs.Pictures.{cell_text, is_blank, is_written};
ghost use Rattle.indicatif_term.specs.Resizes.{glyph_at};
ghost use Rattle.indicatif_term.specs.Inside.Rows.{cell_shown, IsJoined};

use crate::cells::glyph::Glyph;
use crate::cells::joiners::{Joiner, joiners_up_to, leads_to_none, show_joiners, store_joiner};
use indicatif_text::columns::Refusal;
use std::alloc::Global;
use std::marker::Model;

/// The content of a cell.
#[derive(Clone, Copy, Drop)]
enum CellKind {
    /// Nothing.
    Empty,
    /// A character without joiners.
    Single(char),
    /// A character with joiners, and the place of the last one among those of the row.
    Joined(char, u32),
    /// A further cell of the wide character on its left.
    Continued,
}

/// A cell of a row. Contracts see the place of its last joiner in place of its joiners.
#[derive(Drop)]
pub(crate) struct Cell {
    kind: CellKind,
}

impl Model for Cell {
    ghost use Rattle.indicatif_text.specs.Columns.{Cell};

    ghost Value = { Cell };

    ghost use Rattle.indicatif_term.specs.Inside.Rows.{cell_of};

    ghost view = { λ s. cell_of s.kind };
}

impl Cell {
    /// A cell that is empty.
    #[inline]
    pub(crate) fn empty() -> Cell
        ensures { result ≡ Blank }
    {
        Cell {
            kind: CellKind::Empty,
        }
    }

    /// A further cell of the wide character on its left.
    #[inline]
    pub(crate) fn continued() -> Cell
        ensures { result ≡ Continued }
    {
        Cell {
            kind: CellKind::Continued,
        }
    }

    /// The first cell of a character.
    #[inline]
    pub(crate) fn plain(c: char) -> Cell
        ensures { result ≡ Written (record { base = c; joiners = [] }) }
    {
        Cell {
            kind: CellKind::Single(c),
        }
    }

    /// Whether the cell is a further one of the wide character on its left.
    #[inline]
    pub(crate) fn is_continued(&self) -> bool
        ensures { result ≡ is_continued self.now }
    {
        match self.kind {
            CellKind::Continued => true,
            _ => false,
        }
    }

    /// Whether the cell was written, and not emptied since.
    pub(crate) fn is_written(&self) -> bool
        ensures { result ≡ is_written self.now }
    {
        match self.kind {
            CellKind::Empty => false,
            _ => true,
        }
    }

    /// Whether the cell is empty, or a space without a joiner.
    pub(crate) fn is_blank(&self, joiners: &[Joiner]) -> bool
        ensures { result ≡ is_blank (cell_shown joiners.now self.now) }
    {
        match self.kind {
            CellKind::Empty => true,
            CellKind::Single(c) => c == ' ',
            CellKind::Joined(c, last) => c == ' ' && leads_to_none(joiners, last),
            CellKind::Continued => false,
        }
    }

    /// Joins a joiner to the cell's character, if it has one. Refused: `Memory`; then nothing has changed.
    pub(crate) fn join(&mut self, joiners: &mut Vec<Joiner>, joiner: char) -> Result<(), Refusal>
        ensures joined { OnOk result (IsJoined joiner joiners.old.items joiners.new.items self.old self.new) }
        ensures err { OnErr result (self.new ≡ self.old) }
        ensures joiners { OnErr result (joiners.new.items ≡ joiners.old.items) }
        ensures refused { IfErr result (λ e. e ≡ Refusal.Memory) }
    {
        match self.kind {
            CellKind::Single(c) => self.kind = CellKind::Joined(
                c,
                store_joiner(joiners, 0, joiner)?,
            ),
            CellKind::Joined(c, last) => self.kind = CellKind::Joined(
                c,
                store_joiner(joiners, last, joiner)?,
            ),
            CellKind::Empty | CellKind::Continued => {}
        }
        Ok(())
    }

    /// The character that begins in the cell, with its joiners: a space if it is empty, and none if it continues one. Refused: `Memory`.
    pub(crate) fn glyph(&self, alloc: Global, joiners: &[Joiner]) -> Result<Option<Glyph>, Refusal>
        ensures glyph { IfOk result (λ g. option_to_list g ≡ glyph_at (cell_shown joiners.now self.now)) }
        ensures refused { IfErr result (λ e. e ≡ Refusal.Memory) }
    {
        match self.kind {
            CellKind::Empty => Ok(Some(Glyph::plain(alloc, ' '))),
            CellKind::Single(c) => Ok(Some(Glyph::plain(alloc, c))),
            CellKind::Joined(c, last) => Ok(Some(Glyph::joined(
                c,
                joiners_up_to(alloc, joiners, last)?,
            ))),
            CellKind::Continued => Ok(None),
        }
    }

    /// Appends the cell's characters to `out`: a space for an empty cell. Refused: `Memory`.
    pub(crate) fn show(
        &self,
        alloc: Global,
        joiners: &[Joiner],
        out: &mut String,
    ) -> Result<(), Refusal>
        ensures shown { OnOk result (string_bytes out.new
            ≡ string_bytes out.old ++ encode_utf8_all (cell_text (cell_shown joiners.now self.now))) }
        ensures refused { IfErr result (λ e. e ≡ Refusal.Memory) }
    {
        match self.kind {
            CellKind::Empty => out.push(' ')?,
            CellKind::Single(c) => out.push(c)?,
            CellKind::Joined(c, last) => {
                out.push(c)?;
                show_joiners(alloc, joiners, last, out)?;
            }
            CellKind::Continued => {}
        }
        Ok(())
    }
}
