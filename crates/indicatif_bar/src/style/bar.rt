//! A bar of clusters.
ghost use Rattle.std.specs.Prelude.{◌≡◌, ◌<◌, ◌≤◌, ◌++◌, ◌*◌, ◌/◌, ◌%◌, string_bytes, length, OnOk, IfOk, IfSome, [], unwrap_or};
ghost use Rattle.indicatif_bar.specs.Keys.{bar_fraction};
ghost use Rattle.indicatif_bar.specs.Layout.{bar_text};
ghost use Rattle.indicatif_bar.specs.Inside.Bars.{shade_of, begun_text, cells_left};
ghost use Rattle.indicatif_bar.specs.Inside.Steps.{placeholder_layout};
ghost use Rattle.indicatif_bar.specs.Inside.Texts.{texts_in};

use crate::measures::Fraction;
use crate::progress::ProgressState;
use crate::style::ProgressStyle;
use crate::style::keys::BarKey;
use crate::style::padding::push_times;
use crate::style::steps::{Placeholder, open_style};
use crate::style::texts::Texts;
use crate::tracker::Tracks;
use std::alloc::AllocError;

/// How many of the cells are filled, and the remainder for the next one.
fn filled(done: Fraction, cells: u64) -> (u64, u64)
    requires some { 0 < done.den }
    requires whole { done.num ≤ done.den }
    ensures filled { result.0 ≡ done.num * cells / done.den }
    ensures within { result.0 ≤ cells }
    ensures left { result.1 ≡ done.num * cells % done.den }
{
    let fill = u128::from(done.num) * u128::from(cells);
    let den = u128::from(done.den);
    ((fill / den) as u64, (fill % den) as u64)
}

/// The cluster that shows a partly filled cell, if there is one.
fn shade(done: Fraction, cells: u64, clusters: usize) -> Option<usize>
    requires some { 0 < done.den }
    requires whole { done.num ≤ done.den }
    requires many { 2 ≤ clusters }
    ensures shade { result ≡ shade_of done cells clusters }
    ensures within { IfSome result (λ k. k < clusters) }
{
    let (whole, left) = filled(done, cells);
    let shades = clusters - 2;
    if done.num == 0 || cells == 0 || whole == cells || shades == 0 {
        return None;
    }
    let passed = u128::from(left) * (shades as u128) / u128::from(done.den);
    Some(shades - passed as usize)
}

/// Appends the bar's cells up to the first that isn't filled in part, and returns how many are left.
fn push_begun(
    clusters: &Texts,
    done: Fraction,
    cells: u64,
    out: &mut String,
) -> Result<u64, AllocError>
    requires clusters { 2 ≤ length (texts_in clusters.now) }
    requires some { 0 < done.den }
    requires whole { done.num ≤ done.den }
    ensures left { IfOk result (λ n. n ≡ cells_left done cells (length (texts_in clusters.now))) }
    ensures text { OnOk result (string_bytes out.new
        ≡ string_bytes out.old ++ begun_text (texts_in clusters.now) done cells) }
{
    let (whole, _) = filled(done, cells);
    push_times(clusters.at(0), whole as usize, out)?;
    match shade(done, cells, clusters.len()) {
        Some(k) => {
            out.push_str(clusters.at(k))?;
            Ok(cells - whole - 1)
        }
        None => Ok(cells - whole),
    }
}

impl<K: Tracks> ProgressStyle<K> {
    /// Appends a bar of `width` columns in the layout of its placeholder.
    pub(crate) fn push_bar(
        &self,
        bar: BarKey,
        placeholder: &Placeholder,
        state: &ProgressState,
        width: u64,
        out: &mut String,
    ) -> Result<(), AllocError>
        ensures { OnOk result (string_bytes out.new ≡ string_bytes out.old
            ++ bar_text self.now.clusters self.now.colours (unwrap_or (placeholder_layout placeholder.now).alternative []) (bar_fraction state.now bar) width) }
    {
        let cells = width / self.cell_columns as u64;
        let left = push_begun(&self.clusters, bar.fraction(state), cells, out)?;
        let some = open_style(&placeholder.alternative, self.colours, out)?;
        push_times(
            self.clusters.at(self.clusters.len() - 1),
            left as usize,
            out,
        )?;
        if some {
            out.push_str("\x1b[0m")?;
            return Ok(());
        }
        Ok(())
    }
}
