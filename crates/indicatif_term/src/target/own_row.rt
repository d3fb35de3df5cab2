//! One row of several, on each of which another program draws.
ghost use Rattle.std.specs.Prelude.{◌≡◌, ◌<◌, ◌≤◌, ◌+◌, ◌==◌, IfSome};

/// One row of several, on each of which another program draws: its number, from 1, and how many rows there are.
///
/// ```
/// let row = OwnRow::new(2, 3); // the second of three
/// ```
#[derive(Debug, Clone, Copy, Drop)]
pub struct OwnRow {
    number: u16,
    of: u16,
    ghost within: { (0 < number) × (number ≤ of) },
}

impl OwnRow {
    /// The row with this number. `None` if there is no such row.
    pub fn new(number: u16, of: u16) -> Option<OwnRow>
        ensures { IfSome result (λ row. (row.number ≡ number) × (row.of ≡ of)) }
    {
        if number == 0 || number > of {
            return None;
        }
        Some(OwnRow { number, of })
    }

    /// How many of the rows stand below this one.
    pub fn below(self) -> usize
        ensures { result + self.number ≡ self.of }
    {
        (self.of - self.number) as usize
    }

    /// Whether this row is the last one of them.
    pub fn is_last(self) -> bool
        ensures { result ≡ (self.number == self.of) }
    {
        self.number == self.of
    }
}
