//! A host whose clock goes on by what is added to a number, and by a step at each look.
use std::io;
use std::random::RandomSource;
use std::sync::Wait;
use std::sync::atomic::{AtomicU64, Ordering};
use std::thread::Threads;
use std::time::{Clock, Duration};

/// The nanoseconds of a second.
pub const SECOND: u64 = 1_000_000_000;

/// A host whose clock tells a number of nanoseconds that others may add to, and adds a step to it each time that it is asked. All else is
/// asked of another host.
#[derive(Drop)]
pub struct SteppingClock<'a, R> {
    host: &'a R,
    told: &'a AtomicU64,
    step: u64,
}

impl<'a, R> SteppingClock<'a, R> {
    /// Such a host beside another, whose clock tells this number.
    pub fn new(host: &'a R, told: &'a AtomicU64, step: u64) -> Self {
        SteppingClock { host, told, step }
    }
}

impl<'a, R> Clock for SteppingClock<'a, R> {
    fn monotonic(&self) -> io::Result<Duration> {
        Ok(Duration::from_nanos(self.told.fetch_add(self.step, Ordering::SeqCst)))
    }

    fn since_1970(&self) -> io::Result<Duration> {
        Err(io::Error::from(io::ErrorKind::PermissionDenied))
    }
}

impl<'a, R: Alloc> Alloc for SteppingClock<'a, R> {
    type A = R::A;

    fn alloc(&self) -> R::A {
        self.host.alloc()
    }
}

impl<'a, R: Wait> Wait for SteppingClock<'a, R> {}

impl<'a, R: Threads> Threads for SteppingClock<'a, R> {}

impl<'a, R: RandomSource> RandomSource for SteppingClock<'a, R> {
    fn fill_bytes(&self, buf: &mut [u8]) -> io::Result<()> {
        self.host.fill_bytes(buf)
    }
}
