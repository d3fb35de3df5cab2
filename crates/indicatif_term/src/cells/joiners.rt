//! The joiners of a row: one list, in the order of joining.
ghost use Rattle.std.specs.Prelude.{◌≡◌, ◌+◌, ◌++◌, ◌∷◌, [], IfOk, IfErr, OnOk, OnErr, length, reverse, encode_utf8_all, string_bytes};
ghost use Rattle.indicatif_term.specs.Inside.Joiners.{chain};
ghost use Rattle.indicatif_term.specs.Pictures.{is_empty};

use indicatif_text::columns::Refusal;
use std::alloc::Global;

/// A joiner, and the place of the one that was joined to the same character before it: counted from 1, and 0 if there is none.
#[derive(Clone, Copy, Drop)]
pub(crate) struct Joiner {
    character: char,
    before: u32,
}

/// Adds a joiner after those of the row, and returns its place. Refused: `Memory`, also if there is no place below 2^32 left.
pub(crate) fn store_joiner(
    joiners: &mut Vec<Joiner>,
    before: u32,
    character: char,
) -> Result<u32, Refusal>
    ensures place { IfOk result (λ n. n ≡ length joiners.old.items + 1) }
    ensures put { OnOk result (joiners.new.items ≡ joiners.old.items ++ record { character = character; before = before } ∷ []) }
    ensures err { OnErr result (joiners.new.items ≡ joiners.old.items) }
    ensures refused { IfErr result (λ e. e ≡ Refusal.Memory) }
{
    if joiners.len() >= 0xFFFF_FFFF {
        return Err(Refusal::Memory);
    }
    let place = joiners.len() as u32 + 1;
    joiners.push(Joiner { character, before })?;
    Ok(place)
}

/// Whether no joiner has this place.
pub(crate) fn leads_to_none(joiners: &[Joiner], last: u32) -> bool
    ensures { result ≡ is_empty (chain (reverse joiners.now) last) }
{
    last == 0 || last as usize > joiners.len()
}

/// Appends the joiners of the character whose last one has this place. Refused: `Memory`.
pub(crate) fn show_joiners(
    alloc: Global,
    joiners: &[Joiner],
    last: u32,
    out: &mut String,
) -> Result<(), Refusal>
    ensures shown { OnOk result (string_bytes out.new ≡ string_bytes out.old ++ encode_utf8_all (chain (reverse joiners.now) last)) }
    ensures refused { IfErr result (λ e. e ≡ Refusal.Memory) }
{
    let found = joiners_up_to(alloc, joiners, last)?;
    push_reversed(&found, out)
}

/// The joiners of the character whose last one has this place, that one first. Refused: `Memory`.
pub(crate) fn joiners_up_to(
    alloc: Global,
    joiners: &[Joiner],
    last: u32,
) -> Result<Vec<char>, Refusal>
    ensures found { IfOk result (λ v. reverse v.items ≡ chain (reverse joiners.now) last) }
    ensures refused { IfErr result (λ e. e ≡ Refusal.Memory) }
{
    let mut found = Vec::new(alloc);
    let mut left = last as usize;
    while left > 0 && left <= joiners.len() {
        let joiner = joiners[left - 1];
        found.push(joiner.character)?;
        let before = joiner.before as usize;
        left = if before < left { before } else { 0 };
    }
    Ok(found)
}

/// Appends joiners to a text, the last one first. Refused: `Memory`.
fn push_reversed(characters: &[char], out: &mut String) -> Result<(), Refusal>
    ensures pushed { OnOk result (string_bytes out.new ≡ string_bytes out.old ++ encode_utf8_all (reverse characters.now)) }
    ensures refused { IfErr result (λ e. e ≡ Refusal.Memory) }
{
    let mut left = characters.len();
    while left > 0 {
        left -= 1;
        out.push(characters[left])?;
    }
    Ok(())
}
