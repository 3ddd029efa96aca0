//! A system in which a file comes under a name after that was looked at.
use std::alloc::Allocator;
use std::fs::{File, Metadata, OpenOptions};
use std::io;
use std::io::{Error, ErrorKind};
use std::rt::Files;

/// It finds nothing under any name, and opens what is there. It does nothing else.
#[derive(Drop)]
pub struct LateNames<'a, R> {
    pub below: &'a R,
}

fn not_found<T>() -> io::Result<T> {
    Err(Error::from(ErrorKind::NotFound))
}

impl<R: Files<File = File>> Files for LateNames<'_, R> {
    type File = File;

    type Dir = R::Dir;

    fn open_file(&self, how: &OpenOptions, path: &str) -> io::Result<File> {
        self.below.open_file(how, path)
    }

    fn metadata(&self, _path: &str) -> io::Result<Metadata> {
        not_found()
    }

    fn symlink_metadata(&self, _path: &str) -> io::Result<Metadata> {
        not_found()
    }

    fn open_dir(&self, _path: &str) -> io::Result<R::Dir> {
        not_found()
    }

    fn copy(&self, _from: &str, _to: &str) -> io::Result<u64> {
        not_found()
    }

    fn rename(&self, _from: &str, _to: &str) -> io::Result<()> {
        not_found()
    }

    fn remove_file(&self, _path: &str) -> io::Result<()> {
        not_found()
    }

    fn create_dir(&self, _path: &str) -> io::Result<()> {
        not_found()
    }

    fn remove_dir(&self, _path: &str) -> io::Result<()> {
        not_found()
    }

    fn remove_dir_all<B: Allocator>(&self, _alloc: B, _path: &str) -> io::Result<()> {
        not_found()
    }
}
