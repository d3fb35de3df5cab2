//! The steady ticker of a bar.
ghost use Rattle.std.specs.Prelude.{◌≡◌, ◌<◌, ◌+◌, Some, None, IfSome, true};
ghost use Rattle.std.specs.Option.{ForSome};

/// The installed ticker, if any. Each has its own number.
#[derive(Drop)]
pub struct Ticker {
    installed: Option<u64>,
    next: u64,
    ghost fresh: { ForSome installed (λ n. n < next) },
}

impl Ticker {
    /// No ticker is installed.
    pub fn new() -> Ticker
        ensures { result.installed ≡ None }
    {
        Ticker {
            installed: None,
            next: 0,
        }
    }

    /// A number for a ticker, which none had; `None` if there is none left, and then nothing has changed.
    pub fn begin(&mut self) -> Option<u64>
        ensures some { IfSome result (λ n. (n ≡ self.old.next) × (self.new.next ≡ n + 1)) }
        ensures none { result ≡ None → self.new ≡ self.old }
        ensures installed { self.new.installed ≡ self.old.installed }
    {
        if self.next == u64::MAX {
            return None;
        }
        let number = self.next;
        self.next += 1;
        Some(number)
    }

    /// Installs the ticker with this number in place of any other.
    pub fn install(&mut self, number: u64)
        requires { number < self.old.next }
        ensures { (self.new.installed ≡ Some number) × (self.new.next ≡ self.old.next) }
    {
        self.installed = Some(number);
    }

    /// Removes the installed ticker.
    pub fn disable(&mut self)
        ensures { (self.new.installed ≡ None) × (self.new.next ≡ self.old.next) }
    {
        self.installed = None;
    }

    /// Whether the ticker with this number is installed.
    pub fn is_installed(&self, number: u64) -> bool
        ensures { (result ≡ true) → self.now.installed ≡ Some number }
    {
        self.installed == Some(number)
    }
}
