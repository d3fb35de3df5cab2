//! A download with its bytes, its rate and the time left.
use anyhow::Result;
use indicatif::ProgressBar;
use indicatif::machine::{Shares, StderrBar, on_stderr, style_on_stderr};
use std::thread::sleep;
use std::time::Duration;

const TEMPLATE: &str =
    "{spinner:.green} [{elapsed_precise}] [{wide_bar:.cyan/blue}] {bytes}/{total_bytes} ({bytes_per_sec}, {eta})";

const TOTAL: u64 = 23_123_123;
/// The bytes of a piece, but for the last one, and how many pieces there are.
const PIECE: u64 = 223_211;

const PIECES: u64 = 104;

pub fn main<R: Shares>(rt: R, host: &HostRuntime) -> Result<()> {
    let style = style_on_stderr(host, TEMPLATE)?.progress_chars("#>-")?;
    let setup = on_stderr(host)?;
    let bar: StderrBar<R> = ProgressBar::styled(rt, rt.alloc(), style, Some(TOTAL), setup)?;
    for piece in 1..=PIECES {
        bar.set_position(piece.saturating_mul(PIECE).min(TOTAL))?;
        sleep(&rt, Duration::from_millis(12));
    }
    bar.finish_with_message("downloaded")?;
    Ok(())
}
