//! Polled readers and writers.
ghost use Rattle.std.specs.Prelude.{◌≡◌, ◌≤◌, ◌<◌, Ok, length, take, []};
ghost use Rattle.futures.specs.Poll.{IfReady, OnPending};
ghost use Rattle.futures.specs.Task.{Covers, Keeps};
ghost use Rattle.tokio.specs.Io.Moved.{count_moved, bytes_moved, IfReadyErr, OnReadyOk};
ghost use Rattle.indicatif.specs.Wrap.{inner_of, PlacesBar, ReadPlaces, WritePlaces, SameBar};

use crate::wrappers::moves::Moves;
use crate::wrappers::wrap::ProgressBarIter;
use futures::task::{Context, Poll};
use std::io;
use tokio::io::{AsyncRead, AsyncWrite};

/// Reads from the inner reader. A read that is ready moves the bar by the bytes read, 0 if it failed; a pending one leaves the bar
/// unchanged.
impl<T: AsyncRead, P: Moves + Drop> AsyncRead for ProgressBarIter<T, P> {
    ghost needs = { λ s. T.needs (inner_of s) };

    ghost reads = { λ a xs b. T.reads (inner_of a) xs (inner_of b) };

    ghost is_at_end = { λ s. T.is_at_end (inner_of s) };

    ghost fails = { λ s. T.fails (inner_of s) };

    ghost reads_nothing = { λ s. T.reads_nothing (inner_of s) };

    ghost reads_in_order = { λ a xs b ys c. T.reads_in_order (inner_of a) xs (inner_of b) ys (inner_of c) };

    fn poll_read(&mut self, cx: &mut Context<'_>, buf: &mut [u8]) -> Poll<io::Result<usize>>
        ensures bound { count_moved result ≤ length buf.new }
        ensures bytes { T.reads (inner_of self.old) (bytes_moved result buf.new) (inner_of self.new) }
        ensures end { result ≡ Poll.Ready (Ok 0) → 0 < length buf.old → T.is_at_end (inner_of self.new) }
        ensures failed { IfReadyErr result (T.fails (inner_of self.new)) }
        ensures registered { OnPending result (Covers cx.new (T.needs (inner_of self.new))) }
        ensures kept { Keeps cx.old cx.new }
        ensures placed { ReadPlaces P.stands P.leads self.old result self.new }
    {
        let polled = self.it.poll_read(cx, buf);
        match &polled {
            Poll::Ready(Ok(n)) => {
                let n = *n as u64;
                self.went_on(n);
            }
            Poll::Ready(Err(_)) => self.went_on(0),
            Poll::Pending => {}
        }
        polled
    }
}

/// Writes to the inner writer. A write that is ready moves the bar by the bytes written; one that failed or is pending leaves the bar
/// unchanged, and so do a flush and a shutdown.
impl<T: AsyncWrite, P: Moves + Drop> AsyncWrite for ProgressBarIter<T, P> {
    ghost needs = { λ s. T.needs (inner_of s) };

    ghost writes = { λ a xs b. T.writes (inner_of a) xs (inner_of b) };

    ghost is_flushed = { λ s. T.is_flushed (inner_of s) };

    ghost is_shut_down = { λ s. T.is_shut_down (inner_of s) };

    ghost is_full = { λ s. T.is_full (inner_of s) };

    ghost fails = { λ s. T.fails (inner_of s) };

    ghost writes_nothing = { λ s. T.writes_nothing (inner_of s) };

    ghost writes_in_order = { λ a xs b ys c. T.writes_in_order (inner_of a) xs (inner_of b) ys (inner_of c) };

    fn poll_write(&mut self, cx: &mut Context<'_>, buf: &[u8]) -> Poll<io::Result<usize>>
        ensures bound { count_moved result ≤ length buf.now }
        ensures bytes { T.writes (inner_of self.old) (bytes_moved result buf.now) (inner_of self.new) }
        ensures full { result ≡ Poll.Ready (Ok 0) → 0 < length buf.now → T.is_full (inner_of self.new) }
        ensures failed { IfReadyErr result (T.fails (inner_of self.new)) }
        ensures registered { OnPending result (Covers cx.new (T.needs (inner_of self.new))) }
        ensures kept { Keeps cx.old cx.new }
        ensures placed { WritePlaces P.stands P.leads self.old result self.new }
    {
        let polled = self.it.poll_write(cx, buf);
        if let Poll::Ready(Ok(n)) = &polled {
            let n = *n as u64;
            self.went_on(n);
        }
        polled
    }

    fn poll_flush(&mut self, cx: &mut Context<'_>) -> Poll<io::Result<()>>
        ensures flushed { OnReadyOk result (T.is_flushed (inner_of self.new)) }
        ensures bytes { T.writes (inner_of self.old) [] (inner_of self.new) }
        ensures failed { IfReadyErr result (T.fails (inner_of self.new)) }
        ensures registered { OnPending result (Covers cx.new (T.needs (inner_of self.new))) }
        ensures kept { Keeps cx.old cx.new }
        ensures placed { SameBar self.old self.new }
    {
        self.it.poll_flush(cx)
    }

    fn poll_shutdown(&mut self, cx: &mut Context<'_>) -> Poll<io::Result<()>>
        ensures shut_down { OnReadyOk result (T.is_shut_down (inner_of self.new)) }
        ensures bytes { T.writes (inner_of self.old) [] (inner_of self.new) }
        ensures failed { IfReadyErr result (T.fails (inner_of self.new)) }
        ensures registered { OnPending result (Covers cx.new (T.needs (inner_of self.new))) }
        ensures kept { Keeps cx.old cx.new }
        ensures placed { SameBar self.old self.new }
    {
        self.it.poll_shutdown(cx)
    }
}
