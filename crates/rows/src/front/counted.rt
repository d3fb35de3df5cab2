//! A bar whose position can be read and which counts its moves.
use indicatif::{Drawn, Moves, Refusal};
use scripts::got::Got;

/// A bar without a length, so that finishing leaves its position.
#[derive(Drop)]
pub struct Counted {
    pub position: u64,
    pub finished: bool,
    pub moves: u64,
}

impl Counted {
    /// A bar at this position, which hasn't moved.
    pub fn at(position: u64) -> Counted {
        Counted {
            position,
            finished: false,
            moves: 0,
        }
    }

    /// Appends its position, and how many moves it made.
    pub fn push(&self, got: &mut Got) {
        got.number(format_args!("{} {}", self.position, self.moves));
    }
}

impl Moves for Counted {
    ghost use Rattle.std.specs.Prelude.{Some, None};

    ghost stands = { λ bar. Some (record { position = bar.position; finished = bar.finished; ends_at = None }) };

    fn advance(&mut self, n: u64) -> Result<Drawn, Refusal> {
        self.moves = self.moves.wrapping_add(1);
        self.position = self.position.wrapping_add(n);
        Ok(Drawn::Limited)
    }

    fn place(&mut self, place: u64) -> Result<Drawn, Refusal> {
        self.moves = self.moves.wrapping_add(1);
        self.position = place;
        Ok(Drawn::Limited)
    }

    fn finish(&mut self) -> Result<Drawn, Refusal> {
        self.moves = self.moves.wrapping_add(1);
        self.finished = true;
        Ok(Drawn::Yes)
    }

    fn position(&self) -> u64 {
        self.position
    }

    fn finished(&self) -> bool {
        self.finished
    }
}
