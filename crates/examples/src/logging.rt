//! Shows lines that are logged above a bar: they stay, and the bar goes on below them. The terminal has four rows, so the first line
//! scrolls away; the picture still has it.
use anyhow::Result;
use indicatif::{BarState, InMemoryTerm, LoneBar, NoTracker, ProgressDrawTarget, ProgressStyle};

/// The logged lines, and the bar's message after each.
const LINES: &[(&str, &str)] = &[
    ("copied a.txt", "copying\n1 of 4"),
    ("copied b.txt", "copying\n2 of 4"),
    ("copied c.txt", "copying\n3 of 4"),
    ("copied d.txt", "copying\n4 of 4"),
];

fn print_rows(rt: &HostRuntime, rows: Vec<String>) -> Result<()> {
    for row in rows {
        println!(rt; "{row}")?;
    }
    Ok(())
}

fn copy_all(rt: &HostRuntime, bar: &mut LoneBar<NoTracker, InMemoryTerm>) -> Result<()> {
    for (line, message) in LINES {
        bar.println(line, 0)?;
        bar.set_message(message, 0)?;
    }
    if let Some(term) = bar.term() {
        println!(rt; "{}\n-- and all rows:", term.contents()?)?;
        print_rows(rt, term.picture()?)?;
    }
    Ok(())
}

pub fn main(rt: &HostRuntime) -> Result<()> {
    let style = ProgressStyle::with_template(rt.alloc(), "{msg}")?;
    let bar = BarState::styled(rt.alloc(), style, None, 0)?;
    let target = ProgressDrawTarget::term_like(InMemoryTerm::new(rt.alloc(), 4, 20)?);
    copy_all(rt, &mut LoneBar::new(bar, target))
}
