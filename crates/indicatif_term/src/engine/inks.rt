//! A text read cell by cell, with the colour sequences that are open at each; and what two texts begin with alike.
ghost use Rattle.std.specs.Prelude.{◌≡◌, ◌==◌, ◌≤◌, ◌-◌, ◌∷◌, suc, ℕ, [], IsTrue, IsCharBoundary, None, drop, length, chars, if◌then◌else◌};
ghost use Rattle.std.specs.List.{list_any};
ghost use Rattle.indicatif_text.specs.Columns.{colour_length};
ghost use Rattle.indicatif_term.specs.Inside.Inks.{NONE, closes, same_ink, in_ink, padded, read};
ghost use Rattle.indicatif_term.specs.Inside.Rests.{ArePlain, AreShared, ink_of, cells};

use indicatif_text::columns::colour_len;

/// The sequence that closes all others.
pub const RESET: &str = "\u{1b}[0m";

/// The colour sequences that are open: the last ones, which stand next to one another, and those next before.
#[derive(Clone, Copy)]
pub struct Colours<'a> {
    pub base: &'a str,
    pub group: &'a str,
}

/// No colour sequences.
pub const NO_COLOURS: Colours<'static> = Colours {
    base: "",
    group: "",
};

/// Whether the same colour sequences are open. Mostly none are.
pub fn are_same(a: &Colours<'_>, b: &Colours<'_>) -> bool
    ensures { result ≡ same_ink (ink_of a.now) (ink_of b.now) }
{
    are_none(a) & are_none(b) || a.base == b.base && a.group == b.group
}

/// Whether no colour sequences are open.
fn are_none(ink: &Colours<'_>) -> bool
    ensures { IsTrue result → ink_of ink.now ≡ NONE }
{
    ink.base.is_empty() & ink.group.is_empty()
}

/// What is left of a text, and the colour sequences that are open in front of it.
#[derive(Clone, Copy)]
pub struct InkedText<'a> {
    pub text: &'a str,
    pub ink: Colours<'a>,
}

/// The next cell of what is left of a text, which goes past it, and past the sequences in front of it, which are open then: a space without
/// colours where the text ends.
#[inline(always)]
pub fn next_cell(reading: &mut InkedText<'_>) -> char
    ensures first { (n : ℕ) → padded (suc n) (cells reading.old) ≡ in_ink (ink_of reading.new.ink) result ∷ padded n (cells reading.new) }
    ensures rest { length (cells reading.new) ≡ length (cells reading.old) - 1 }
{
    pass_colours(reading);
    let mut rest = reading.text.chars();
    match rest.next() {
        Some(c) => {
            reading.text = rest.as_str();
            c
        }
        None => {
            reading.ink = NO_COLOURS;
            ' '
        }
    }
}

/// Goes past the colour sequences at the front of a text, which are open then.
fn pass_colours(reading: &mut InkedText<'_>)
    ensures same { cells reading.new ≡ cells reading.old }
    ensures front { colour_length (chars reading.new.text.now) ≡ None }
{
    let mut begun = reading.text;
    let mut closed = false;
    let mut rest = reading.text;
    let mut len = colour_len(rest);
    if len == 0 {
        return;
    }
    'sequences: while len > 0 {
        let closing = closes(&rest[..len]);
        rest = &rest[len..];
        if closing {
            begun = rest;
            closed = true;
        }
        len = colour_len(rest);
    }
    let (group, text) = begun.split_at(begun.len() - rest.len());
    let base = group_or_none(closed, reading.ink.group);
    reading.text = text;
    reading.ink = Colours { base, group };
}

/// These colour sequences, or none, if one closed all.
fn group_or_none(closed: bool, group: &str) -> &str
    ensures { result.now ≡ (if closed then [] else group.entry.now) }
{
    if closed { "" } else { group }
}

/// Whether a colour sequence closes all that are open.
pub fn closes(sequence: &str) -> bool
    ensures { result ≡ closes (chars sequence.now) }
{
    sequence == RESET
}

/// Whether a text leaves colours open: whether its last escape character begins another sequence than the one that closes all.
pub fn leaves_open(text: &str) -> bool {
    let bytes = text.as_bytes();
    let mut at = if has_escape(bytes) { bytes.len() } else { 0 };
    'bytes: while at > 0 {
        at -= 1;
        if bytes[at] == 0x1B {
            return !bytes[at..].starts_with(RESET.as_bytes());
        }
    }
    false
}

/// Whether there is an escape character. It looks at each byte, so that many are compared at once.
#[inline(always)]
pub fn has_escape(bytes: &[u8]) -> bool
    ensures { result ≡ list_any (λ b. b == 0x1B) bytes.now }
{
    let mut found = false;
    'bytes: for byte in bytes {
        found = found | (*byte == 0x1B);
    }
    found
}

/// What two texts begin with, without an escape character, and what follows in each.
#[derive(Clone, Copy)]
pub struct Alike<'a> {
    pub front: &'a str,
    pub own: &'a str,
    pub other: &'a str,
}

/// Two texts as what both begin with, up to the first escape character, and what follows: something of the second one, if that isn't empty.
pub fn split<'a>(old: &'a str, new: &'a str) -> Alike<'a>
    ensures { ArePlain old.entry.now new.entry.now result }
{
    let from = shared(old, new);
    let (front, own) = old.split_at(from);
    let (_, other) = new.split_at(from);
    Alike { front, own, other }
}

/// A place up to which two texts are the same, without an escape character, where a character begins; not behind all of the second one.
fn shared(old: &str, new: &str) -> usize
    ensures boundary { IsCharBoundary old.now result }
    ensures same { AreShared result old.now new.now }
{
    let olds = old.as_bytes();
    let news = new.as_bytes();
    let most = olds.len().min(news.len().saturating_sub(1));
    old.floor_char_boundary(shared_bytes(&olds[..most], &news[..most]))
}

/// How many bytes two texts begin with alike, up to the first escape character.
#[inline(always)]
fn shared_bytes(a: &[u8], b: &[u8]) -> usize
    ensures { AreShared result a.now b.now }
{
    let mut at = shared_blocks(a, b);
    'bytes: while at < a.len() && at < b.len() && a[at] == b[at] && a[at] != 0x1B {
        at += 1;
    }
    at
}

/// The same, in whole blocks.
#[inline(always)]
fn shared_blocks(a: &[u8], b: &[u8]) -> usize
    ensures { AreShared result a.now b.now }
{
    let mut at: usize = 0;
    'whole: while is_block_shared(a, b, at) {
        at += 16;
    }
    at
}

/// Whether two texts have the same block at a place, without an escape character.
#[inline(always)]
fn is_block_shared(a: &[u8], b: &[u8], at: usize) -> bool
    requires own { at ≤ length a.now }
    requires other { at ≤ length b.now }
    ensures { IsTrue result → AreShared 16 (drop at a.now) (drop at b.now) }
{
    if a.len() - at < 16 || b.len() - at < 16 {
        return false;
    }
    are_plain(&a[at..at + 16], &b[at..at + 16])
}

/// Whether two slices are the same, without an escape character. It looks at each byte, so that many are compared at once.
#[inline(always)]
fn are_plain(a: &[u8], b: &[u8]) -> bool
    requires { length a.now ≡ length b.now }
    ensures { IsTrue result → AreShared (length a.now) a.now b.now }
{
    let mut same = true;
    for at in 0..a.len() {
        same = same & (a[at] == b[at]) & (a[at] != 0x1B);
    }
    same
}

/// How many characters a text has.
pub fn char_count(text: &str) -> usize
    ensures { result ≡ length (chars text.now) }
{
    text.chars().count()
}
