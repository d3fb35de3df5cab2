//! Whether a command asks for a draw.
ghost use Rattle.std.specs.Prelude.{◌≡◌};
ghost use Rattle.indicatif_bar.specs.Kinds.{asked_of};
ghost use Rattle.indicatif_bar.specs.Machines.{is_no};

use indicatif_term::target::RateLimiter;
use indicatif_text::columns::Moment;

/// Whether a command asks for a draw.
///
/// ```
/// bar.tick(now); // Ask::Unforced: a draw, if the limiter allows it
/// bar.force_draw(now); // Ask::Forced
/// ```
#[derive(Clone, Copy, Debug, Drop, PartialEq, Eq)]
pub enum Ask {
    /// No draw.
    No,
    /// A draw, if the limiter allows it.
    Unforced,
    /// A draw, whatever the limiter says.
    Forced,
}

impl Ask {
    /// Whether the command wants no draw.
    ///
    /// ```
    /// assert!(Ask::No.is_no() && !Ask::Forced.is_no());
    /// ```
    pub fn is_no(self) -> bool
        ensures { result ≡ is_no self }
    {
        match self {
            Ask::No => true,
            Ask::Unforced | Ask::Forced => false,
        }
    }

    /// Whether this draw may be made at this moment. A forced draw always may; an unforced one if the limiter allows it, which counts it,
    /// or if there is no limiter.
    ///
    /// ```
    /// let mut limiter = None;
    /// assert!(Ask::Unforced.allows(&mut limiter, 0)); // at each call
    /// ```
    pub fn allows(self, limiter: &mut Option<RateLimiter>, now: Moment) -> bool
        ensures answer { result ≡ (asked_of self now limiter.old).0 }
        ensures next { limiter.new ≡ (asked_of self now limiter.old).1 }
    {
        match (self, limiter) {
            (Ask::Unforced, Some(limiter)) => limiter.allow(now),
            _ => true,
        }
    }
}
