//! Shows a refusal: a character that is wider than the terminal. Nothing is written, and the bar goes on.
use anyhow::Result;
use indicatif::{BarState, InMemoryTerm, LoneBar, NoTracker, ProgressDrawTarget, ProgressStyle};

const MESSAGES: &[&str] = &["a", "国", "b"];

fn say_all(rt: &HostRuntime, bar: &mut LoneBar<NoTracker, InMemoryTerm>) -> Result<()> {
    for message in MESSAGES {
        match bar.set_message(message, 0) {
            Ok(_) => println!(rt; "drawn"),
            Err(refusal) => println!(rt; "E{}: {refusal}", refusal.number()),
        }?;
        if let Some(term) = bar.term() {
            let shown = term.contents()?;
            println!(rt; "message {:?}, shown {shown:?}", bar.bar().message())?;
        }
    }
    Ok(())
}

pub fn main(rt: &HostRuntime) -> Result<()> {
    let style = ProgressStyle::with_template(rt.alloc(), "{msg}")?;
    let bar = BarState::styled(rt.alloc(), style, None, 0)?;
    let target = ProgressDrawTarget::term_like(InMemoryTerm::new(rt.alloc(), 3, 1)?);
    say_all(rt, &mut LoneBar::new(bar, target))
}
