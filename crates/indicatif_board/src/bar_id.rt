//! Bars by their numbers.

/// A bar by its board's mark and its number there. Boards are told apart by their marks alone, and numbers are never used again.
///
/// ```
/// let elsewhere = BarId { mark: 0, number: 1 };
/// assert!(matches!(board.remove(elsewhere), Err(Refusal::ForeignBar)));
/// ```
#[derive(Clone, Copy, Debug, Drop, PartialEq, Eq)]
pub struct BarId {
    /// The board's mark: a number that you chose when you made the board.
    pub mark: u64,
    /// The bar's number, counted from 0 in the order of insertion.
    pub number: u64,
}
