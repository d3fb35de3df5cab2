//! The words of a command line.
use crate::checks::Granted;
use bars_run::words::words;
use std::env::{Env, FillError};
use std::process::Abort;

/// A program that was started with these words.
#[derive(Drop)]
struct Started(&'static [&'static [u8]]);

impl Env for Started {
    fn arg(&self, i: usize, buf: &mut [u8]) -> Result<usize, FillError> {
        let Some(word) = self.0.get(i) else {
            return Err(FillError::NotPresent);
        };
        match buf.get_mut(..word.len()) {
            Some(front) => {
                front.copy_from_slice(word);
                Ok(word.len())
            }
            None => Err(FillError::TooLong),
        }
    }

    fn var(&self, _name: &str, _buf: &mut [u8]) -> Result<usize, FillError> {
        Err(FillError::NotPresent)
    }

    fn var_at(&self, _i: usize, _buf: &mut [u8]) -> Result<usize, FillError> {
        Err(FillError::NotPresent)
    }
}

/// Ends the test if the words are others.
fn are_words(rt: &impl Abort, words: &[String], wanted: &[&str]) {
    same!(rt; words.len(), wanted.len());
    for (word, wanted) in words.iter().zip(wanted) {
        same!(rt; word.as_str(), *wanted);
    }
}

/// The command line of a program, and its words after its name; none if one of them isn't UTF-8.
const STARTED: &[(&[&[u8]], &[&str])] = &[
    (&[b"bars", b"demo"], &["demo"]),
    (&[], &[]),
    (&[b"bars"], &[]),
    (&[b"bars", b"run", b"2", b"10"], &["run", "2", "10"]),
    (&[b"bars", b"\xff"], &[]),
    (&[b"bars", b"demo", b"\xff"], &[]),
];

#[test]
fn words_behind_the_name(rt: HostRuntime) {
    for (started, wanted) in STARTED {
        let words = words(&(Started(started), rt.alloc())).granted(&rt);
        are_words(&rt, &words, wanted);
    }
}
