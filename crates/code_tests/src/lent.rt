//! The tests' own runtime, which passes everything on to the machine's. It counts its copies, and refuses another one on request.
use crate::checks::{Granted, Runtime};
use std::alloc::{AllocError, Global};
use std::io;
use std::sync::atomic::{AtomicU64, Ordering};
use std::sync::{Arc, Wait};
use std::thread::Threads;
use std::time::{Clock, Duration};

/// The number of copies, and whether another is refused.
#[derive(Drop)]
pub struct Count {
    living: AtomicU64,
    refusing: AtomicU64,
}

impl Count {
    /// How many copies there are.
    pub fn living(&self) -> u64 {
        self.living.load(Ordering::SeqCst)
    }

    /// Sets whether another copy is refused.
    pub fn refuse(&self, refusing: bool) {
        self.refusing.store(u64::from(refusing), Ordering::SeqCst);
    }
}

/// A copy of the runtime.
pub struct Lent<R: Drop> {
    rt: R,
    count: Arc<Count, Global>,
}

/// The first copy, and the count.
pub fn first<R: Runtime>(rt: &R) -> (Lent<R>, Arc<Count, Global>) {
    let count = Count {
        living: AtomicU64::new(1),
        refusing: AtomicU64::new(0),
    };
    let count = Arc::new(rt.alloc(), count).granted(rt);
    let own = Arc::try_clone(&count).granted(rt);
    let lent = Lent {
        rt: *rt,
        count: own,
    };
    (lent, count)
}

impl<R: Copy + Drop> Clone for Lent<R> {
    fn clone(&self) -> Result<Lent<R>, AllocError> {
        if self.count.refusing.load(Ordering::SeqCst) != 0 {
            return Err(AllocError);
        }
        let count = Arc::try_clone(&self.count)?;
        count.living.fetch_add(1, Ordering::SeqCst);
        Ok(Lent { rt: self.rt, count })
    }
}

impl<R: Drop> Drop for Lent<R> {
    fn drop(self) {
        let Lent { rt, count } = self;
        drop(rt);
        count.living.fetch_sub(1, Ordering::SeqCst);
    }
}

impl<R: Wait + Drop> Wait for Lent<R> {}

impl<R: Threads + Drop> Threads for Lent<R> {}

impl<R: Clock + Drop> Clock for Lent<R> {
    fn monotonic(&self) -> io::Result<Duration> {
        self.rt.monotonic()
    }

    fn since_1970(&self) -> io::Result<Duration> {
        self.rt.since_1970()
    }

    fn sleep(&self, duration: Duration) {
        self.rt.sleep(duration)
    }
}
