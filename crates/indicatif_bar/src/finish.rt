//! How a bar is finished.
ghost use Rattle.std.specs.Prelude.{◌≡◌, IfOk, IfErr, IsTrue};
ghost use Rattle.indicatif_bar.specs.Finishes.{finish_as, finish_of, finish_takes_memory};

use crate::text::{Text, own_text};
use indicatif_text::columns::Refusal;
use std::alloc::Global;

/// How a bar is finished. The rule is that of the documentation of the Rust crate `indicatif` 0.18.6. It owns its message, unless the type
/// says that it borrows it (`S` is `&str`, see `Text`).
///
/// ```
/// bar.with_finish(ProgressFinish::AndLeave, now);
/// bar.finish_using_style(now)?; // at its length, and stays
/// ```
#[derive(Debug, Default, Drop)]
pub enum ProgressFinish<S = String> {
    /// At its length, if it has one; it stays on the screen.
    AndLeave,
    /// At its length, if it has one, and with this message; it stays on the screen.
    WithMessage(S),
    /// At its length, if it has one; it leaves the screen.
    #[default]
    AndClear,
    /// Where it stands; it stays on the screen.
    Abandon,
    /// At its length, if it has one, and with this message; it stays on the screen.
    AbandonWithMessage(S),
}

impl<S: Text> ProgressFinish<S> {
    /// A copy of the finish, with its own message.
    ///
    /// Refused: `Memory`, only if it has a message that isn't empty.
    pub fn try_clone(&self, alloc: Global) -> Result<ProgressFinish, Refusal>
        ensures same { IfOk result (λ other. finish_of other ≡ finish_as S.bytes self.now) }
        ensures memory { IfErr result (λ e. (e ≡ Refusal.Memory) × IsTrue (finish_takes_memory (finish_as S.bytes self.now))) }
    {
        Ok(match self {
            ProgressFinish::AndLeave => ProgressFinish::AndLeave,
            ProgressFinish::WithMessage(text) => {
                ProgressFinish::WithMessage(own_text(alloc, text)?)
            }
            ProgressFinish::AndClear => ProgressFinish::AndClear,
            ProgressFinish::Abandon => ProgressFinish::Abandon,
            ProgressFinish::AbandonWithMessage(text) => {
                ProgressFinish::AbandonWithMessage(own_text(alloc, text)?)
            }
        })
    }
}
