//! Shows the formatters: durations, bytes, counts and quotients as texts.
use anyhow::{Result, bail};
use indicatif::{
    BinaryBytes, DecimalBytes, FormattedDuration, HumanBytes, HumanCount, HumanDuration,
    HumanFloatCount,
};

/// Nanoseconds of a second.
const SECOND: u64 = 1_000_000_000;

pub fn main(rt: &HostRuntime) -> Result<()> {
    let worked = FormattedDuration(3_661 * SECOND);
    let left = HumanDuration(90 * 60 * SECOND);
    let mut short = String::new(rt.alloc());
    left.write_short(&mut short)?;
    println!(rt; "FormattedDuration {worked}\nHumanDuration {left}, in short {short}")?;
    println!(rt; "HumanBytes {}", HumanBytes(1_536))?;
    println!(rt; "BinaryBytes {}", BinaryBytes(1_536))?;
    println!(rt; "DecimalBytes {}", DecimalBytes(1_536))?;
    println!(rt; "HumanCount {}", HumanCount(1_234_567))?;
    let Some(third) = HumanFloatCount::new(10_000, 3) else {
        bail!("a divisor of 0");
    };
    let mut rounded = String::new(rt.alloc());
    third.with_decimals(1, &mut rounded)?;
    println!(rt; "HumanFloatCount {third}, with one decimal {rounded}")?;
    Ok(())
}
