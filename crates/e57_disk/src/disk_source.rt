//! Files of the disk as a source.

ghost use Rattle.std.specs.Prelude.{◌≡◌, ◌↔◌, IsOk, IfOk};
ghost use Rattle.std.specs.Fs.{metadata_len, file_type, IsFile};
ghost use Rattle.e57_base.specs.Source.{Opens, HasPage, ReadsPage, HasRest, ReadsRest};
ghost use Rattle.e57_disk.specs.Disk.{no_files, files_view, files_opened, files_read};

use crate::read_ahead::ReadAhead;
use e57_base::{Failed, Source};
use std::alloc::Global;
use std::fs::{File, Metadata, OpenFile};
use std::marker::Model;
use std::os::unix::fs::FileExt;
use std::rt::Files;
use std::{fs, io};

/// Files of the disk, of which one is open at a time. It tells nothing of what they hold, nor of their names.
///
/// Only regular files are opened, by their names or by links to them. Anything else fails before it is opened: a folder,
/// a device, and a pipe, whose opening would wait for someone to write. The length of the open file is the one that it had
/// when it was opened.
#[derive(Drop)]
pub struct DiskSource<'a, R: Files<File = File>> {
    files: &'a R,
    file: Option<File>,
    ahead: ReadAhead,
    size: Option<u64>,
    opened: u64,
    faults: u64,
}

impl<'a, R: Files<File = File>> Model for DiskSource<'a, R> {
    ghost use Rattle.e57_disk.specs.Disk.{DiskFiles};

    ghost Value = { DiskFiles };

    ghost view = { λ s. record { size = s.size; opened = s.opened; faults = s.faults } };
}

impl<'a, R: Files<File = File>> DiskSource<'a, R> {
    /// No file is open. Takes no memory; the first file that is opened takes some for 64 pages that are read ahead, and
    /// without it each page is read by itself.
    pub fn new(alloc: Global, files: &'a R) -> Self
        ensures { result ≡ no_files }
    {
        DiskSource {
            files,
            file: None,
            ahead: ReadAhead::new(alloc),
            size: None,
            opened: 0,
            faults: 0,
        }
    }
}

// The length of a regular file in bytes. Anything else has none.
fn regular_len(metadata: &Metadata) -> io::Result<u64>
    ensures regular { IsOk result ↔ IsFile (file_type metadata.now) }
    ensures len { IfOk result (λ len. len ≡ metadata_len metadata.now) }
{
    if metadata.is_file() {
        return Ok(metadata.len());
    }
    Err(io::Error::from(io::ErrorKind::InvalidInput))
}

// The regular file of this name, and its length in bytes.
fn open_regular<R: Files<File = File>>(files: &R, name: &str) -> io::Result<(File, u64)> {
    regular_len(&fs::metadata(files, name)?)?;
    let file = fs::open(files, name)?;
    let len = regular_len(&file.metadata()?)?;
    Ok((file, len))
}

// Reads the bytes behind the whole pages of a file of `size` bytes, with zeros behind them, and whether it could.
fn read_rest_of(file: &File, size: u64, out: &mut [u8; 1024]) -> bool {
    let (rest, zeros) = out.split_at_mut((size % 1024) as usize);
    zeros.fill(0);
    file.read_exact_at(rest, size - size % 1024).is_ok()
}

impl<R: Files<File = File>> Source for DiskSource<'_, R> {
    ghost view = { files_view };

    ghost holds_size = { λ s. tt };

    /// Opens the regular file of this name. It fails where there is none, or it may not be read.
    fn open(&mut self, name: &str) -> Result<u64, Failed>
        ensures opens { Opens (files_view self.old) name.now result (files_view self.new) }
        ensures after { self.new ≡ files_opened result self.old }
    {
        self.opened = self.opened.saturating_add(1);
        match open_regular(self.files, name) {
            Ok((file, size)) => {
                self.ahead.start();
                self.file = Some(file);
                self.size = Some(size);
                Ok(size)
            }
            Err(_) => {
                self.file = None;
                self.size = None;
                self.faults = self.faults.saturating_add(1);
                Err(Failed)
            }
        }
    }

    /// Reads page `n` of the open file. It fails where the system fails, or the file was cut short.
    fn read_page(&mut self, n: u64, out: &mut [u8; 1024]) -> Result<(), Failed>
        requires { HasPage (files_view self.old) n }
        ensures reads { ReadsPage (files_view self.old) n out.new result (files_view self.new) }
        ensures after { self.new ≡ files_read result self.old }
    {
        let is_read = match &self.file {
            Some(file) => self.ahead.read(file, n, out),
            None => false,
        };
        if is_read {
            return Ok(());
        }
        self.faults = self.faults.saturating_add(1);
        Err(Failed)
    }

    /// Reads the bytes of the open file behind its whole pages. It fails where the system fails, or the file was cut
    /// short.
    fn read_rest(&mut self, out: &mut [u8; 1024]) -> Result<(), Failed>
        requires { HasRest (files_view self.old) }
        ensures reads { ReadsRest (files_view self.old) out.new result (files_view self.new) }
        ensures after { self.new ≡ files_read result self.old }
    {
        let is_read = match (&self.file, self.size) {
            (Some(file), Some(size)) => read_rest_of(file, size, out),
            _ => false,
        };
        if is_read {
            return Ok(());
        }
        self.faults = self.faults.saturating_add(1);
        Err(Failed)
    }
}
