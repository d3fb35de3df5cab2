//! Iterators, readers, writers and streams that move a bar.
//!
//! - `progress_iterator`: `ProgressIterator`, an iterator wrapped with a bar that you pass, or with its own.
//! - `builders`: `with_style` and the like set up a wrapper's own bar before it moves.
//! - `moves`: `Moves`, what a wrapper's bar has to do: advance, go to a place, finish.
//! - `owned`: `OwnedBar`, a bar with its clock, which needn't be shared.
//! - `wrap`: `ProgressBarIter`, the wrapper: made, taken apart, and what its last draw answered.
//! - `items`: an iterator's items from either end.
//! - `bytes`: bytes that are read and written.
//! - `seeking`: readers and writers that seek.
//! - `polled`: polled readers and writers.
//! - `streams`: polled items.
//! - `seek`: `SeekMax`, the position that is shown after moves and seeks.
//! - `ring`: `MaxRingBuf`, the greatest of the last places, for `seek`.

mod builders;
mod bytes;
mod items;
pub mod moves;
pub mod owned;
mod polled;
pub mod progress_iterator;
pub mod ring;
pub mod seek;
mod seeking;
mod streams;
pub mod wrap;
