//! The words of a command line.
use indicatif_text::columns::Refusal;
use std::alloc::Global;
use std::env;
use std::env::Env;
use std::io::ErrorKind;

/// The words after the program's name; none if one of them isn't UTF-8.
///
/// Refused: `Memory`.
pub fn words<R: Env + Alloc<A = Global>>(rt: &R) -> Result<Vec<String>, Refusal> {
    match env::args(rt) {
        Ok(words) => Ok(words.skip(1).collect(rt.alloc())?),
        Err(e) => match e.kind() {
            ErrorKind::OutOfMemory => Err(Refusal::Memory),
            _ => Ok(Vec::new(rt.alloc())),
        },
    }
}
