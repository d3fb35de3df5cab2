//! Three programs of the documentation of the Rust crate, carried over. They draw on standard error, in colours if they are wanted.
//!
//! - `download`: bytes and a rate. `multi`: two bars that threads move, with logged lines. `iterator`: a loop with a spinner.
mod download;
mod iterator;
mod multi;

use anyhow::Result;
use indicatif::machine::Shares;

pub fn main<R: Shares + Print>(rt: R, host: &HostRuntime) -> Result<()> {
    println!(rt; "-- download")?;
    download::main(rt, host)?;
    println!(rt; "-- multi")?;
    multi::main(rt, host)?;
    println!(rt; "-- iterator")?;
    let sum = iterator::main(rt, host)?;
    println!(rt; "sum {sum}")?;
    Ok(())
}
