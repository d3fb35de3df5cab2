//! Random numbers by a seed.
ghost use Rattle.std.specs.Prelude.{◌<◌};

use indicatif_text::columns::Refusal;
use rand_core::utils::NextWord;
use rand_pcg::Pcg32;
use std::alloc::Global;

/// Numbers one after another, determined by a seed and the number of a stream.
#[derive(Drop)]
pub struct Numbers(Pcg32);

impl Numbers {
    /// The numbers of this seed in this stream.
    pub fn new(seed: u64, stream: u64) -> Numbers {
        Numbers(Pcg32::new(seed, stream))
    }

    /// The next number.
    pub fn next(&mut self) -> u32 {
        self.0.next_word()
    }

    /// A number below this one; 0 if there is none.
    pub fn below(&mut self, count: usize) -> usize
        ensures { 0 < count → result < count }
    {
        let word = self.next() as usize;
        if count == 0 { 0 } else { word % count }
    }

    /// True once in `count` times.
    pub fn one_in(&mut self, count: usize) -> bool {
        self.below(count) == 0
    }

    /// One of these texts, which are parted by bars.
    pub fn piece_of<'a>(&mut self, pieces: &'a str) -> &'a str {
        let at = self.below(pieces.split('|').count());
        pieces.split('|').nth(at).unwrap_or("")
    }

    /// At most `most` of these texts, which are parted by bars, one after another.
    pub fn joined(&mut self, alloc: Global, pieces: &str, most: usize) -> Result<String, Refusal> {
        let mut text = String::new(alloc);
        for _ in 0..self.below(most.saturating_add(1)) {
            text.push_str(self.piece_of(pieces))?;
        }
        Ok(text)
    }
}
