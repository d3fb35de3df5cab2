//! The greatest of the last places, and the position that moves and seeks show.
//!
//! `places 10` or `places 1` begins with none, and keeps the last 10 or 1: `put P ..` adds these and gives the greatest. `places seeks`
//! begins with neither moves nor seeks: `seek P` and `move P BYTES` give the position that is shown.
use indicatif::{MaxRingBuf, SeekMax};
use scripts::got::{Bad, Got, Outcome};
use scripts::row::{At, headed, number};

/// The places.
#[derive(Drop)]
pub enum Places {
    Ten(MaxRingBuf<10>),
    One(MaxRingBuf<1>),
    Seeks(SeekMax<5, 10>),
}

/// No places yet.
pub fn begin(rest: &str, at: At) -> Result<Box<Places>, Bad> {
    at.boxed(match rest {
        "10" => Places::Ten(MaxRingBuf::new()),
        "1" => Places::One(MaxRingBuf::new()),
        "seeks" => Places::Seeks(SeekMax::new()),
        _ => return Err(Bad::Step),
    })
}

impl Places {
    /// Makes a step.
    pub fn step(&mut self, step: &str, got: &mut Got) -> Outcome {
        let (name, rest) = headed(step);
        let place = match (self, name) {
            (Places::Ten(places), "put") => greatest(places, rest)?,
            (Places::One(places), "put") => greatest(places, rest)?,
            (Places::Seeks(seeks), "seek") => seeks.update_seek(number(rest)?),
            (Places::Seeks(seeks), "move") => {
                let (place, bytes) = headed(rest);
                seeks.update_seq(number(place)?, number(bytes)?)
            }
            _ => return Err(Bad::Step),
        };
        got.number(place);
        Ok(())
    }
}

/// The greatest place, after these were added.
fn greatest<const N: usize>(places: &mut MaxRingBuf<N>, new: &str) -> Result<u64, Bad> {
    for place in new.split_whitespace() {
        places.update(number(place)?);
    }
    Ok(places.max())
}
