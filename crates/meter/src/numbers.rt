//! Numbers for other programs, one a line.

/// Writes to standard error: the percent that was sent if the size is known, otherwise how much was sent, each interval while bytes are
/// sent and once at the end.
#[derive(Drop)]
pub struct Numbers {
    size: Option<u64>,
    interval: u64,
    done: u64,
    next: Option<u64>,
    said: Option<u64>,
}

impl Numbers {
    /// Before the first byte.
    pub fn new(size: Option<u64>, interval: u64) -> Numbers {
        Numbers {
            size,
            interval,
            done: 0,
            next: None,
            said: None,
        }
    }

    /// Counts `count` more by this moment.
    pub fn went(&mut self, rt: &impl Eprint, now: u64, count: u64) {
        self.done = self.done.saturating_add(count);
        let next = self.next.unwrap_or(now.saturating_add(self.interval));
        self.next = Some(next);
        if now >= next {
            self.next = Some(now.saturating_add(self.interval));
            self.say(rt);
        }
    }

    /// Writes the last number.
    pub fn end(&mut self, rt: &impl Eprint) {
        if self.said != Some(self.number()) {
            self.say(rt);
        }
    }

    /// Writes the number.
    fn say(&mut self, rt: &impl Eprint) {
        let number = self.number();
        self.said = Some(number);
        let _ = eprintln!(rt; "{number}");
    }

    /// The percent, or how much was sent.
    fn number(&self) -> u64 {
        match self.size {
            Some(size) => percent(self.done, size),
            None => self.done,
        }
    }
}

/// How many hundredths of a size are done, at most 100; 100 if it is 0.
fn percent(done: u64, size: u64) -> u64 {
    if done >= size {
        return 100;
    }
    u64::try_from(u128::from(done) * 100 / u128::from(size)).unwrap_or(100)
}
