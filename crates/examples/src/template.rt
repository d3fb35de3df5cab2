//! Shows the parts of a template, and the place where one is refused.
use anyhow::Result;
use indicatif::{Part, Template};
use std::io;

fn print(rt: &HostRuntime, part: Part) -> io::Result<()> {
    match part {
        Part::Literal(text) => println!(rt; "text {text:?}"),
        Part::NewLine => println!(rt; "new line"),
        Part::Placeholder {
            key,
            align,
            width,
            truncate,
            ..
        } => println!(rt; "key {key}, {align:?}, width {width:?}, cut {truncate}"),
    }
}

pub fn main(rt: &HostRuntime) -> Result<()> {
    let template = "{spinner:.green} [{wide_bar}]\n{msg:>20!} 100{{%}}";
    for part in Template::parse(rt.alloc(), template)?.parts() {
        print(rt, part)?;
    }
    if let Err(error) = Template::parse(rt.alloc(), "{msg:5x}") {
        println!(rt; "{error}")?;
    }
    Ok(())
}
