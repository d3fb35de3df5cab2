//! Scripts that are played with memory refused once, and judged when there is memory again.
use crate::faults::{Fault, Held};
use crate::sweeps::judge::Look;
use crate::sweeps::play::{Play, Where};
use crate::sweeps::players::{Kind, Player};
use crate::sweeps::printing;
use crate::sweeps::record::{Plan, Size};
use crate::sweeps::script::Step;
use crate::sweeps::sweep::{Case, Runs};
use indicatif_text::columns::Refusal;

/// Calls that aren't the script's, and before which of its calls they are made.
type Others<'a> = (usize, &'a [Step]);

/// The initial room of the terminal's writer, in bytes, if it takes no memory.
pub const ROOM: usize = 4096;

impl Where {
    /// The name of the outcome, for a run that is as defined.
    pub fn name(self) -> &'static str {
        match self {
            Where::Nowhere => "no call was refused",
            Where::Unmade => "nothing was made",
            Where::Call(_) => "a call answered Memory",
            Where::Terminal(_) => "the terminal found no memory",
        }
    }
}

impl Play {
    /// Where memory was refused, in a run that is as defined.
    ///
    /// What `Play::looked_at` says holds, and rows above stand after each byte. What follows, by its answers and the rows of each draw, is
    /// what a new player does that makes the same calls with enough memory: without the refused call, or with what that call had begun; or
    /// on a terminal that fails at that very call of the writer.
    pub fn judged<R: Runs>(&self, rt: R) -> Result<Where, Fault> {
        let found = self.looked_at(Look::EachByte)?;
        let follows = match found {
            Where::Call(at) => self.follows_a_refusal(rt, at),
            Where::Terminal(at) => self.follows_a_failure(rt, at),
            _ => self.is_like(rt, 0, (0, &[])),
        };
        match follows? {
            true => Ok(found),
            false => Err(Fault::Answer),
        }
    }

    /// What follows a call with `Memory` is what follows without it; or with what it did before its draw; or with all of it right before
    /// the next call that draws bars, if only that one shows the lines that it had stored. If that call erases the rows that stand, a clear
    /// comes before them: nothing that the refused draw would have pushed above the window is there.
    fn follows_a_refusal<R: Runs>(&self, rt: R, at: usize) -> Result<bool, Fault> {
        let Some(note) = self.calls.get(at) else {
            return Ok(false);
        };
        let step = note.step;
        if self.is_like(rt, at, (at, &[]))? {
            return Ok(true);
        }
        if let Some(begun) = step.begun() {
            if self.is_like(rt, at, (at, &[begun]))? {
                return Ok(true);
            }
        }
        match self.next_draw(at) {
            Some((next, true)) if step.stores() => {
                self.is_like(rt, at, (next, &[Step::Clear, step]))
            }
            Some((next, false)) if step.stores() => self.is_like(rt, at, (next, &[step])),
            _ => Ok(false),
        }
    }

    /// The first call after this one that draws bars, and whether it erases rows of bars that are gone.
    fn next_draw(&self, call: usize) -> Option<(usize, bool)> {
        for (at, note) in self.calls.iter().enumerate() {
            let step = note.step;
            if at > call && step.draws() {
                return Some((at, step.takes_back()));
            }
        }
        None
    }

    /// Whether a new player gives the same answers and rows from this call on, and has the same order at the end. It makes the calls that
    /// weren't refused, and others before one of them.
    fn is_like<R: Runs>(&self, rt: R, from: usize, others: Others) -> Result<bool, Fault> {
        let fresh = self.fresh(rt, others, Plan::Never)?;
        Ok(self.order == fresh.order && self.seen(from)? == fresh.seen(from)?)
    }

    /// Whether a new player on a terminal that fails at the same call of its writer writes the same bytes, and answers the same except for
    /// the kind of the failure.
    fn follows_a_failure<R: Runs>(&self, rt: R, at: usize) -> Result<bool, Fault> {
        let last = self.record.point().last;
        let plan = last.map_or(Plan::Never, |(call, _)| Plan::Call(call));
        let fresh = self.fresh(rt, (0, &[]), plan)?;
        let from = at.saturating_add(1);
        Ok(self.bytes()? == fresh.bytes()? && self.seen(from)? == fresh.seen(from)?)
    }

    /// The calls of a new player: those that weren't refused, and others before one of them.
    fn fresh<R: Runs>(&self, rt: R, others: Others, plan: Plan) -> Result<Play, Fault> {
        let size = self.size;
        let mut fresh = Play::new(self.alloc, self.kind, Case { size, plan }, ROOM)?;
        let mut player = Player::new(rt, &fresh)?;
        for (at, note) in self.calls.iter().enumerate() {
            if at == others.0 {
                take_others(&mut fresh, &mut player, others.1)?;
            }
            if note.said != Err(Refusal::Memory) {
                fresh.takes(&mut player, (note.place, note.step))?;
            }
        }
        Ok(fresh)
    }
}

/// Has a player make calls that aren't the script's.
fn take_others<R: Runs>(play: &mut Play, player: &mut Player<R>, others: &[Step]) -> Held {
    for step in others {
        play.takes(player, (None, *step))?;
    }
    Ok(())
}

/// How a script is played. The terminal of `bars run` has its own size.
#[derive(Clone, Copy, Drop)]
pub struct Playing {
    pub size: Size,
    /// The initial room of the terminal's writer, in bytes; if that is too little the terminal takes memory, too.
    pub room: usize,
    /// Whether the script is judged after it was played. If not, it shows how often it takes memory.
    pub is_judged: bool,
}

/// What is played, by its name; `bars run` if it isn't a script.
pub const PLAYED: &[(&str, Option<Kind>)] = &[
    ("board", Some(Kind::Board)),
    ("sized-board", Some(Kind::Sized)),
    ("lone", Some(Kind::Lone)),
    ("sized-lone", Some(Kind::SizedLone)),
    ("shared", Some(Kind::Shared)),
    ("loop", Some(Kind::Loop)),
    ("run", None),
];

/// Where memory was refused in a run.
pub fn found<R: Runs>(rt: R, played: Option<Kind>, playing: Playing) -> Result<Where, Fault> {
    match played {
        Some(kind) => found_in_script(rt, kind, playing),
        None => printing::refused(rt.alloc()),
    }
}

/// Plays a script, and judges it. Memory that the test itself needs is taken again where it was refused.
fn found_in_script<R: Runs>(rt: R, kind: Kind, playing: Playing) -> Result<Where, Fault> {
    let case = Case::unbroken(playing.size);
    let new = || Play::new(rt.alloc(), kind, case, playing.room);
    let mut play = new().or_else(|_| new())?;
    if !is_played(rt, &mut play)? {
        return Ok(Where::Unmade);
    }
    match playing.is_judged {
        false => Ok(Where::Nowhere),
        true => match play.judged(rt) {
            Err(Fault::Refused(Refusal::Memory)) => play.judged(rt),
            judged => judged,
        },
    }
}

/// Has a new player make its script's calls; whether there was memory for the player.
fn is_played<R: Runs>(rt: R, play: &mut Play) -> Result<bool, Fault> {
    let mut player = match Player::new(rt, play) {
        Ok(player) => player,
        Err(Refusal::Memory) => return Ok(false),
        Err(refusal) => return Err(Fault::Refused(refusal)),
    };
    let (_, script, _) = play.kind.parts();
    play.plays(&mut player, script)?;
    Ok(true)
}
