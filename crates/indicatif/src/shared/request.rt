//! The result of a call of a shared bar: it is made, or has to be tried again.

/// The result of a call of a bar: it was made; or the bar's board is in a pause, and the call is handed back.
pub enum Tried<A, Q> {
    /// It was made, with this answer.
    Made(A),
    /// Nothing was done; try again.
    ComeAgain(Q),
}
