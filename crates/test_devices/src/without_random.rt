// A host that lacks random numbers.
use std::alloc::Allocator;
use std::fs::{Metadata, OpenOptions};
use std::io;
use std::random::RandomSource;
use std::rt::Files;
use std::sync::Wait;
use std::thread::Threads;
use std::time::{Clock, Duration};

/// A host that has no random numbers. All else is asked of another host.
#[derive(Drop)]
pub struct WithoutRandom<'a, R> {
    host: &'a R,
}

impl<'a, R> WithoutRandom<'a, R> {
    /// Such a host beside another.
    pub fn new(host: &'a R) -> Self {
        WithoutRandom { host }
    }
}

impl<'a, R> RandomSource for WithoutRandom<'a, R> {
    fn fill_bytes(&self, _buf: &mut [u8]) -> io::Result<()> {
        Err(io::Error::from(io::ErrorKind::PermissionDenied))
    }
}

impl<'a, R: Alloc> Alloc for WithoutRandom<'a, R> {
    type A = R::A;

    fn alloc(&self) -> R::A {
        self.host.alloc()
    }
}

impl<'a, R: Wait> Wait for WithoutRandom<'a, R> {}

impl<'a, R: Threads> Threads for WithoutRandom<'a, R> {}

impl<'a, R: Clock> Clock for WithoutRandom<'a, R> {
    fn monotonic(&self) -> io::Result<Duration> {
        self.host.monotonic()
    }

    fn since_1970(&self) -> io::Result<Duration> {
        self.host.since_1970()
    }

    fn sleep(&self, duration: Duration) {
        self.host.sleep(duration);
    }
}

impl<'a, R: Files> Files for WithoutRandom<'a, R> {
    type File = R::File;

    type Dir = R::Dir;

    fn open_file(&self, how: &OpenOptions, path: &str) -> io::Result<R::File> {
        self.host.open_file(how, path)
    }

    fn open_dir(&self, path: &str) -> io::Result<R::Dir> {
        self.host.open_dir(path)
    }

    fn metadata(&self, path: &str) -> io::Result<Metadata> {
        self.host.metadata(path)
    }

    fn symlink_metadata(&self, path: &str) -> io::Result<Metadata> {
        self.host.symlink_metadata(path)
    }

    fn copy(&self, from: &str, to: &str) -> io::Result<u64> {
        self.host.copy(from, to)
    }

    fn rename(&self, from: &str, to: &str) -> io::Result<()> {
        self.host.rename(from, to)
    }

    fn remove_file(&self, path: &str) -> io::Result<()> {
        self.host.remove_file(path)
    }

    fn create_dir(&self, path: &str) -> io::Result<()> {
        self.host.create_dir(path)
    }

    fn remove_dir(&self, path: &str) -> io::Result<()> {
        self.host.remove_dir(path)
    }

    fn remove_dir_all<B: Allocator>(&self, alloc: B, path: &str) -> io::Result<()> {
        self.host.remove_dir_all(alloc, path)
    }
}
