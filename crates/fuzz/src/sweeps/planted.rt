//! A board with a wrong body in one of its calls, so that it shows what the judge of refused memory finds.
use crate::faults::{Fault, Held};
use crate::sweeps::play::{Play, Where};
use crate::sweeps::players::{Kind, Player};
use crate::sweeps::record::Wire;
use crate::sweeps::refused::ROOM;
use crate::sweeps::script::{Said, Step};
use crate::sweeps::sweep::{Case, LARGEST, Runs};
use indicatif_text::columns::{Drawn, Refusal};
use std::io::Write;

/// A wrong body of a call, which says that it got no memory.
#[derive(Drop)]
enum Body {
    Nothing,
    /// Nothing, but it says that it drew.
    Lies,
    /// It writes this.
    Writes(&'static str),
    /// It does what another call should.
    Makes(Step),
}

/// A wrong body: of which calls of whose script, and what each of them does.
#[derive(Drop)]
pub struct Planted {
    pub name: &'static str,
    kind: Kind,
    at: &'static [usize],
    body: Body,
}

/// A size on which the bars have as many rows as on the largest terminal, filled with more blanks.
const WIDE: Step = Step::Size(4, 20);

/// Rows of wrong bodies.
macro_rules! planted {
    ($($name:literal, $kind:ident $at:tt, $body:expr;)*) => {
        &[$(Planted { name: $name, kind: Kind::$kind, at: &$at, body: $body }),*]
    };
}

/// The first two do what a call that gets no memory may do: nothing, or what it does before its draw. The last six are for a script with
/// sizes: a draw without lines comes before the calls with the numbers 29 to 32, so that rows are kept.
pub const PLANTED: &[Planted] = planted! {
    "a draw does nothing", Board [4], Body::Nothing;
    "a message is set", Board [8], Body::Makes(Step::Told(2, "c"));
    "a draw writes a byte first", Board [4], Body::Writes("\r");
    "a draw empties a row above", Board [4], Body::Writes("\x1B[9A\r\x1B[2K");
    "a bar is taken in", Board [2], Body::Makes(Step::Add("bb"));
    "a bar is taken out", Board [13], Body::Makes(Step::Remove(0));
    "a bar is told to keep its rows", Board [10], Body::Makes(Step::Keep(1));
    "another message is set", Board [8], Body::Makes(Step::Told(2, "z"));
    "a log does nothing and says that it drew", Board [6], Body::Lies;
    "a size does nothing", Sized [2], Body::Nothing;
    "a size is taken", Sized [2], Body::Makes(WIDE);
    "two sizes do nothing", Sized [2, 7], Body::Nothing;
    "two sizes do nothing while rows are kept", Sized [29, 30], Body::Nothing;
    "a size is taken while rows are kept", Sized [30], Body::Makes(WIDE);
    "a draw does nothing while rows are kept", Sized [32], Body::Nothing;
};

/// What the judge of refused memory finds for a board's script with this body.
pub fn found<R: Runs>(rt: R, planted: &Planted) -> Result<Where, Fault> {
    let mut play = Play::new(rt.alloc(), planted.kind, Case::unbroken(LARGEST), ROOM)?;
    let mut player = Player::new(rt, &play)?;
    planted.plays(&mut play, &mut player)?;
    play.judged(rt)
}

impl Planted {
    /// Has a player make its script's calls with this body, and notes what they do.
    fn plays<R: Runs>(&self, play: &mut Play, player: &mut Player<R>) -> Held {
        let (_, script, _) = self.kind.parts();
        for (at, step) in script.iter().enumerate() {
            let said = match self.at.contains(&at) {
                true => self.body.make(play, player),
                false => player.make(play.alloc, *step),
            };
            play.notes((Some(at), *step), said, player.order())?;
        }
        Ok(())
    }
}

impl Body {
    /// Does what it does, and returns what it says.
    fn make<R: Runs>(&self, play: &Play, player: &mut Player<R>) -> Said {
        match self {
            Body::Nothing => (),
            Body::Lies => return Ok(Drawn::Yes),
            Body::Writes(bytes) => {
                Wire(play.record.clone()?).write(bytes.as_bytes()).ok();
            }
            Body::Makes(step) => {
                player.make(play.alloc, *step).ok();
            }
        }
        Err(Refusal::Memory)
    }
}
