//! Shows a bar on standard error, behind a `BufWriter`: each draw is one write. If standard error is no terminal, or one without cursor
//! moves (`TERM` unset or `dumb`), the bar is hidden. The size is that of `LINES` and `COLUMNS`.
use anyhow::Result;
use indicatif::machine::on_stderr;
use indicatif::{BarState, Clock, LoneBar, NoTracker, ProgressStyle, Setup, TermLike};

/// Shows `copying`, and logs a line above it.
fn copy<T: TermLike + Drop, C: Clock>(
    bar: &mut LoneBar<NoTracker, T>,
    clock: &mut C,
) -> Result<()> {
    bar.set_message("copying", clock.now())?;
    bar.println("a.txt", clock.now())?;
    Ok(())
}

pub fn main(rt: &HostRuntime) -> Result<()> {
    let style = ProgressStyle::with_template(rt.alloc(), "{msg}")?;
    let Setup { target, mut clock } = on_stderr(rt)?;
    let bar = BarState::styled(rt.alloc(), style, None, clock.now())?;
    copy(&mut LoneBar::new(bar, target), &mut clock)?;
    println!(rt; "done")?;
    Ok(())
}
