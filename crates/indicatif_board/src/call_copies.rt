//! Copies of calls and answers.
ghost use Rattle.std.specs.Prelude.{◌≡◌, IfOk, IfErr, IsTrue};
ghost use Rattle.indicatif_board.specs.Calls.{call_of, entrant_of, call_copy_takes, entrant_copy_takes};

use crate::calls::{Answer, Call, Candidate};
use indicatif_bar::state::own_text;
use indicatif_bar::style::Tracks;
use indicatif_text::columns::Refusal;
use std::alloc::Global;

impl<K: Tracks> Call<K> {
    /// A copy of the call.
    ///
    /// ```
    /// let again = call.try_clone(alloc)?;
    /// ```
    ///
    /// Refused: `Memory`, only if it has a new bar, a style, or a text that isn't empty.
    pub fn try_clone(&self, alloc: Global) -> Result<Call<K>, Refusal>
        ensures same { IfOk result (λ other. call_of other ≡ call_of self.now) }
        ensures memory { IfErr result (λ e. (e ≡ Refusal.Memory) × IsTrue (call_copy_takes (call_of self.now))) }
    {
        Ok(match self {
            Call::Insert { at, candidate } => Call::Insert {
                at: *at,
                candidate: candidate.try_clone()?,
            },
            Call::Remove(id) => Call::Remove(*id),
            Call::Drop(id) => Call::Drop(*id),
            Call::Log(text) => Call::Log(own_text(alloc, text)?),
            Call::BarLog(id, text) => Call::BarLog(*id, own_text(alloc, text)?),
            Call::Clear => Call::Clear,
            Call::Redraw => Call::Redraw,
            Call::Align(alignment) => Call::Align(*alignment),
            Call::Bar(id, command) => Call::Bar(*id, command.try_clone(alloc)?),
        })
    }
}

impl<K: Tracks> Candidate<K> {
    /// A copy of the candidate.
    ///
    /// ```
    /// let again = candidate.try_clone()?;
    /// ```
    ///
    /// Refused: `Memory`, only if it is a new bar.
    pub fn try_clone(&self) -> Result<Candidate<K>, Refusal>
        ensures same { IfOk result (λ other. entrant_of other ≡ entrant_of self.now) }
        ensures memory { IfErr result (λ e. (e ≡ Refusal.Memory) × IsTrue (entrant_copy_takes (entrant_of self.now))) }
    {
        Ok(match self {
            Candidate::New(bar) => Candidate::New(bar.try_clone()?),
            Candidate::Member(id) => Candidate::Member(*id),
        })
    }
}

impl Answer {
    /// A copy of the answer.
    ///
    /// ```
    /// let again = answer.same();
    /// ```
    pub fn same(&self) -> Answer
        ensures { result ≡ self.now }
    {
        match self {
            Answer::Id(id) => Answer::Id(*id),
            Answer::Accepted => Answer::Accepted,
            Answer::Drawn(drawn) => Answer::Drawn(*drawn),
            Answer::Refused(refusal) => Answer::Refused(*refusal),
        }
    }
}
