//! Wrappers that move a shared bar, and their builders.
ghost use Rattle.std.specs.Prelude.{◌≡◌, IfOk, IfErr, Err};
ghost use Rattle.indicatif_bar.specs.Commands.{WithPosition, WithFinish, WithMessage, WithPrefix, SetStyle, SetElapsed};
ghost use Rattle.indicatif_bar.specs.Finishes.{finish_of};
ghost use Rattle.indicatif_bar.specs.Lone as Lone;
ghost use Rattle.indicatif.specs.Fronts.{CanAnswer};
ghost use Rattle.indicatif.specs.Wrap.{Wraps};

use crate::shared::ProgressBar;
use crate::wrappers::wrap::ProgressBarIter;
use futures::stream::Stream;
use indicatif_bar::lone::LoneCall;
use indicatif_bar::state::{BarCommand, ProgressFinish};
use indicatif_bar::style::{ProgressStyle, Tracks};
use indicatif_term::target::TermLike;
use indicatif_text::columns::{Clock, Refusal};
use std::alloc::AllocError;
use std::io::{Read, Write};
use std::sync::Wait;
use tokio::io::{AsyncRead, AsyncWrite};

/// Wrappers that move this bar, each as another owner.
impl<T: TermLike + Drop, C: Clock + Drop, R: Wait + Clone + Drop, K: Tracks> ProgressBar<
    T,
    C,
    R,
    K,
> {
    /// An iterator that advances the bar by its items and finishes it at its end.
    ///
    /// ```
    /// let mut wrapped = bar.wrap_iter(items.into_iter())?; // wrapped.next() is the first item
    /// ```
    ///
    /// Refused: want of memory, or of owners; the iterator is dropped.
    pub fn wrap_iter<I: Iterator + Drop>(
        &self,
        it: I,
    ) -> Result<ProgressBarIter<I, Self>, AllocError>
        ensures { IfOk result (λ wrapped. Wraps wrapped it) }
    {
        Ok(ProgressBarIter::new(it, self.clone()?))
    }

    /// A reader that sets the bar's position to the bytes read.
    ///
    /// ```
    /// let mut wrapped = bar.wrap_read(bytes)?; // a read of 4 bytes: the position is 4
    /// ```
    ///
    /// Refused: want of memory, or of owners; the reader is dropped.
    pub fn wrap_read<I: Read + Drop>(&self, read: I) -> Result<ProgressBarIter<I, Self>, AllocError>
        ensures { IfOk result (λ wrapped. Wraps wrapped read) }
    {
        Ok(ProgressBarIter::new(read, self.clone()?))
    }

    /// A writer that sets the bar's position to the bytes written.
    ///
    /// ```
    /// let mut wrapped = bar.wrap_write(Vec::new(alloc))?; // a write of "abc": the position is 3
    /// ```
    ///
    /// Refused: want of memory, or of owners; the writer is dropped.
    pub fn wrap_write<I: Write + Drop>(
        &self,
        write: I,
    ) -> Result<ProgressBarIter<I, Self>, AllocError>
        ensures { IfOk result (λ wrapped. Wraps wrapped write) }
    {
        Ok(ProgressBarIter::new(write, self.clone()?))
    }

    /// A stream that advances the bar by its items and finishes it at each end.
    ///
    /// ```
    /// let mut wrapped = bar.wrap_stream(stream)?; // wrapped.poll_next(cx) advances the bar by an item
    /// ```
    ///
    /// Refused: want of memory, or of owners; the stream is dropped.
    pub fn wrap_stream<I: Stream + Drop>(
        &self,
        stream: I,
    ) -> Result<ProgressBarIter<I, Self>, AllocError>
        ensures { IfOk result (λ wrapped. Wraps wrapped stream) }
    {
        Ok(ProgressBarIter::new(stream, self.clone()?))
    }

    /// A polled reader that sets the bar's position to the bytes read.
    ///
    /// ```
    /// let mut wrapped = bar.wrap_async_read(socket)?; // wrapped.poll_read(cx, &mut room) places the bar
    /// ```
    ///
    /// Refused: want of memory, or of owners; the reader is dropped.
    pub fn wrap_async_read<I: AsyncRead + Drop>(
        &self,
        read: I,
    ) -> Result<ProgressBarIter<I, Self>, AllocError>
        ensures { IfOk result (λ wrapped. Wraps wrapped read) }
    {
        Ok(ProgressBarIter::new(read, self.clone()?))
    }

    /// A polled writer that sets the bar's position to the bytes written.
    ///
    /// ```
    /// let mut wrapped = bar.wrap_async_write(socket)?; // wrapped.poll_write(cx, bytes) places the bar
    /// ```
    ///
    /// Refused: want of memory, or of owners; the writer is dropped.
    pub fn wrap_async_write<I: AsyncWrite + Drop>(
        &self,
        write: I,
    ) -> Result<ProgressBarIter<I, Self>, AllocError>
        ensures { IfOk result (λ wrapped. Wraps wrapped write) }
    {
        Ok(ProgressBarIter::new(write, self.clone()?))
    }
}

/// Each of these is a call of the bar, which all its owners see; it asks for no draw, and leaves `last_draw` unchanged. One that is refused
/// drops the wrapper, so wrap `&mut` of what you need afterwards.
impl<
    I: Drop,
    W: TermLike + Drop,
    C: Clock + Drop,
    R: Wait + Clone + Drop,
    K: Tracks,
> ProgressBarIter<I, ProgressBar<W, C, R, K>> {
    /// Sets the position of the wrapper's shared bar. The rate counts it with the next step: `ProgressBar::with_position` says what to do
    /// about that.
    ///
    /// Refused: only on a board, as each command there.
    pub fn with_position(self, position: u64) -> Result<Self, Refusal>
        ensures itself { IfOk result (λ wrapped. wrapped ≡ self) }
        ensures refused { IfErr result (λ e. CanAnswer K (Lone.Obey (WithPosition position)) (Err e)) }
    {
        match self
            .progress
            .tell(LoneCall::Bar(BarCommand::WithPosition(position)))
        {
            Ok(_) => Ok(self),
            Err(refusal) => Err(refusal),
        }
    }

    /// Sets what finishes the wrapper's shared bar at the end.
    ///
    /// Refused: only on a board, as each command there.
    pub fn with_finish(self, finish: ProgressFinish) -> Result<Self, Refusal>
        ensures itself { IfOk result (λ wrapped. wrapped ≡ self) }
        ensures refused { IfErr result (λ e. CanAnswer K (Lone.Obey (WithFinish (finish_of finish))) (Err e)) }
    {
        match self
            .progress
            .tell(LoneCall::Bar(BarCommand::WithFinish(finish)))
        {
            Ok(_) => Ok(self),
            Err(refusal) => Err(refusal),
        }
    }

    /// Sets the style of the wrapper's shared bar.
    ///
    /// Refused: `Memory`; on a board, as each command there.
    pub fn with_style(self, style: ProgressStyle<K>) -> Result<Self, Refusal>
        ensures itself { IfOk result (λ wrapped. wrapped ≡ self) }
        ensures refused { IfErr result (λ e. CanAnswer K (Lone.Obey (SetStyle style)) (Err e)) }
    {
        match self.progress.set_style(style) {
            Ok(_) => Ok(self),
            Err(refusal) => Err(refusal),
        }
    }

    /// Sets the prefix of the wrapper's shared bar.
    ///
    /// Refused: `Memory`; on a board, as each command there.
    pub fn with_prefix(self, text: &str) -> Result<Self, Refusal>
        ensures itself { IfOk result (λ wrapped. wrapped ≡ self) }
        ensures refused { IfErr result (λ e. CanAnswer K (Lone.Obey (WithPrefix text.now)) (Err e)) }
    {
        match self
            .progress
            .tell(LoneCall::Bar(BarCommand::WithPrefix(text)))
        {
            Ok(_) => Ok(self),
            Err(refusal) => Err(refusal),
        }
    }

    /// Sets the message of the wrapper's shared bar.
    ///
    /// Refused: `Memory`; on a board, as each command there.
    pub fn with_message(self, text: &str) -> Result<Self, Refusal>
        ensures itself { IfOk result (λ wrapped. wrapped ≡ self) }
        ensures refused { IfErr result (λ e. CanAnswer K (Lone.Obey (WithMessage text.now)) (Err e)) }
    {
        match self
            .progress
            .tell(LoneCall::Bar(BarCommand::WithMessage(text)))
        {
            Ok(_) => Ok(self),
            Err(refusal) => Err(refusal),
        }
    }

    /// Sets the time since the start of the wrapper's shared bar, in nanoseconds.
    ///
    /// Refused: `ElapsedBeyondClock`, if that is more than the moment of its clock; on a board, as each command there.
    pub fn with_elapsed(self, nanos: u64) -> Result<Self, Refusal>
        ensures itself { IfOk result (λ wrapped. wrapped ≡ self) }
        ensures refused { IfErr result (λ e. CanAnswer K (Lone.Obey (SetElapsed nanos)) (Err e)) }
    {
        match self.progress.set_elapsed(nanos) {
            Ok(_) => Ok(self),
            Err(refusal) => Err(refusal),
        }
    }
}
