//! A disk that makes new files and has no room for a byte in them.

use std::alloc::Allocator;
use std::fs::{File, Metadata, OpenOptions};
use std::io;
use std::path::PathBuf;
use std::rt::Files;

// The files of another disk, where what is written to a part goes to `/dev/full`.
#[derive(Drop)]
pub struct NoRoom<'a, R: Files<File = File>>(pub &'a R);

impl<R: Files<File = File>> Files for NoRoom<'_, R> {
    type File = File;

    type Dir = R::Dir;

    fn open_file(&self, how: &OpenOptions, path: &str) -> io::Result<File> {
        let file = self.0.open_file(how, path)?;
        if how.asks_create_new() {
            return OpenOptions::new().write(true).open(self.0, "/dev/full");
        }
        Ok(file)
    }

    fn open_dir(&self, path: &str) -> io::Result<R::Dir> {
        self.0.open_dir(path)
    }

    fn metadata(&self, path: &str) -> io::Result<Metadata> {
        self.0.metadata(path)
    }

    fn symlink_metadata(&self, path: &str) -> io::Result<Metadata> {
        self.0.symlink_metadata(path)
    }

    fn copy(&self, from: &str, to: &str) -> io::Result<u64> {
        self.0.copy(from, to)
    }

    fn rename(&self, from: &str, to: &str) -> io::Result<()> {
        self.0.rename(from, to)
    }

    fn remove_file(&self, path: &str) -> io::Result<()> {
        self.0.remove_file(path)
    }

    fn create_dir(&self, path: &str) -> io::Result<()> {
        self.0.create_dir(path)
    }

    fn remove_dir(&self, path: &str) -> io::Result<()> {
        self.0.remove_dir(path)
    }

    fn remove_dir_all<B: Allocator>(&self, alloc: B, path: &str) -> io::Result<()> {
        self.0.remove_dir_all(alloc, path)
    }

    fn canonicalize<B: Allocator>(&self, alloc: B, path: &str) -> io::Result<PathBuf<B>> {
        self.0.canonicalize(alloc, path)
    }
}
