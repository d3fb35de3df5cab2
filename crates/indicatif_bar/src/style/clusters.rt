//! Lists of texts: characters, grapheme clusters, copies.
ghost use Rattle.std.specs.Prelude.{◌≡◌, List, ℕ, map, length, nat_lt, IfOk, IfErr, ◌==◌};
ghost use Rattle.indicatif_bar.specs.Builders.{characters_of, clusters_of, progress_fault};
ghost use Rattle.std.specs.List.{list_all};
ghost use Rattle.indicatif_bar.specs.Layout.{text_columns};
ghost use Rattle.indicatif_bar.specs.Inside.Bars.{bytes_of_strings};

use indicatif_text::columns::{Refusal, columns};
use std::alloc::Global;
use unicode_segmentation::UnicodeSegmentation;

/// Whether a text has no second character.
pub(crate) fn has_few_characters(text: &str) -> bool
    ensures { result ≡ nat_lt (length (characters_of text.now)) 2 }
{
    text.chars().nth(1).is_none()
}

/// Whether a text has no second grapheme cluster.
pub(crate) fn has_few_clusters(text: &str) -> bool
    ensures { result ≡ nat_lt (length (clusters_of text.now)) 2 }
{
    text.graphemes(true).nth(1).is_none()
}

/// Whether there is no second text.
pub(crate) fn are_few(texts: &[&str]) -> bool
    ensures { result ≡ nat_lt (length (map (λ text. text.now) texts.now)) 2 }
{
    texts.len() < 2
}

/// Each character of a text by itself.
pub(crate) fn characters_of(alloc: Global, text: &str) -> Result<Vec<String>, Refusal>
    ensures texts { IfOk result (λ v. bytes_of_strings v.items ≡ characters_of text.now) }
    ensures memory { IfErr result (λ e. e ≡ Refusal.Memory) }
{
    let mut all = Vec::new(alloc);
    for c in text.chars() {
        let mut one = String::new(alloc);
        one.push(c)?;
        all.push(one)?;
    }
    Ok(all)
}

/// The grapheme clusters of a text (Unicode, UAX #29).
pub(crate) fn clusters_of(alloc: Global, text: &str) -> Result<Vec<String>, Refusal>
    ensures texts { IfOk result (λ v. bytes_of_strings v.items ≡ clusters_of text.now) }
    ensures memory { IfErr result (λ e. e ≡ Refusal.Memory) }
{
    let mut all = Vec::new(alloc);
    for cluster in text.graphemes(true) {
        all.push(String::from_str(alloc, cluster)?)?;
    }
    Ok(all)
}

/// Copies of borrowed texts.
pub(crate) fn copied(alloc: Global, texts: &[&str]) -> Result<Vec<String>, Refusal>
    ensures texts { IfOk result (λ v. bytes_of_strings v.items ≡ map (λ text. text.now) texts.now) }
    ensures memory { IfErr result (λ e. e ≡ Refusal.Memory) }
{
    let mut all = Vec::with_capacity(alloc, texts.len())?;
    'texts: for text in texts {
        all.push(String::from_str(alloc, *text)?)?;
    }
    Ok(all)
}

/// Copies of owned texts.
pub(crate) fn cloned(alloc: Global, texts: &[String]) -> Result<Vec<String>, Refusal>
    ensures texts { IfOk result (λ v. bytes_of_strings v.items ≡ bytes_of_strings texts.now) }
    ensures memory { IfErr result (λ e. e ≡ Refusal.Memory) }
{
    let mut all = Vec::with_capacity(alloc, texts.len())?;
    'texts: for text in texts {
        all.push(String::from_str(alloc, text.as_str())?)?;
    }
    Ok(all)
}

/// Why these clusters are refused, if they are.
pub(crate) fn progress_fault(clusters: &[String]) -> Option<Refusal>
    ensures { result ≡ progress_fault (bytes_of_strings clusters.now) }
{
    if clusters.len() < 2 {
        return Some(Refusal::FewProgressChars);
    }
    let width = columns(clusters[0].as_str());
    if !all_take(clusters, width) {
        return Some(Refusal::UnequalWidths);
    }
    if width == 0 {
        return Some(Refusal::ZeroWidthChars);
    }
    None
}

/// Whether each text takes `width` columns.
fn all_take(texts: &[String], width: usize) -> bool
    ensures { result ≡ list_all (λ text. text_columns text == width) (bytes_of_strings texts.now) }
{
    'texts: for text in texts {
        if columns(text.as_str()) != width {
            return false;
        }
    }
    true
}
