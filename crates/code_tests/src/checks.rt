//! What a test expects. A check is one call, which ends the test if it doesn't hold: that is proved much faster than std's `assert_eq!`,
//! which is a branch at each place. It prints both values, and the runner the test's name. It names no expression, since each text in a
//! test takes as long to prove as the rest of the check.
use indicatif::LineType;
use indicatif::machine::Shares;
use std::convert::AsStr;
use std::fmt::Debug;
use std::process::Abort;

/// The runtime of a test: it ends the test, waits, starts threads and tells the time. (A `HostRuntime` may wait in a `#[test]` alone, so
/// helpers are generic.)
pub trait Runtime: Shares + Abort {}

impl<R: Shares + Abort> Runtime for R {}

/// Ends the test if the two differ.
pub fn are_same<R: Abort, A: PartialEq + Debug + Drop>(rt: &R, got: A, wanted: A) {
    if got != wanted {
        panic!(*rt; "got {got:?}, wanted {wanted:?}")
    }
}

/// Ends the test if this doesn't hold.
pub fn is_so<R: Abort>(rt: &R, holds: bool) {
    if !holds {
        panic!(*rt; "a check doesn't hold")
    }
}

/// Ends the test if there are other lines than this one.
pub fn is_line(rt: &impl Abort, lines: &[LineType], wanted: &str) {
    match lines {
        [line] => are_same(rt, line.as_str(), wanted),
        _ => are_same(rt, (wanted, lines.len()), (wanted, 1)),
    }
}

/// A result that a test relies on. A test calls `expect` if a later call requires something of the value, and for a value whose type has
/// parameters, such as a shared bar: there a trait's call takes longer to prove.
pub trait Granted<T> {
    /// The value; ends the test if there is none.
    fn granted<R: Abort>(self, rt: &R) -> T;
}

impl<T: Drop, E: Debug + Drop> Granted<T> for Result<T, E> {
    fn granted<R: Abort>(self, rt: &R) -> T {
        self.expect(rt, "granted")
    }
}

impl<T: Drop> Granted<T> for Option<T> {
    fn granted<R: Abort>(self, rt: &R) -> T {
        self.expect(rt, "granted")
    }
}
