//! A file of the disk as a target.

ghost use Rattle.std.specs.Prelude.{◌≡◌};
ghost use Rattle.e57_base.specs.Target.{Creates, TakesPage, PutsPage, Finishes};
ghost use Rattle.e57_disk.specs.Disk.{no_file, file_view, file_created, file_put, file_finished};

use crate::gathered::Gathered;
use crate::part::{Part, sync};
use crate::place::{Place, find_place};
use e57_base::{Failed, Target};
use std::alloc::Global;
use std::fs::File;
use std::marker::Model;
use std::rt::Files;
use std::{fs, io};

// No file of the disk has as many pages.
const MAX_PAGES: u64 = 1 << 50;

/// A new file of the disk. It tells nothing of what it holds, nor of its name.
///
/// If the name is free or has a regular file, the new file is written *beside* it, as `.e57-K.part` in the same folder,
/// and takes the old one's place, with its permissions, when it is finished. Until then, and whatever fails, the old file
/// stays as it was. A part that was not finished is removed by the next `create` and when the target is dropped; a process
/// that is killed leaves it. A link is followed. A device is written in place, and so is a file that has no name any more
/// but is reached by a link of the system, as `/dev/stdout`. A folder, a pipe, a link that leads nowhere, a file that may
/// not be written, and a folder in which no file can be made are failures of `create`.
///
/// Pages that follow one another are gathered in memory, up to 64, and written by one call of the system: when the next
/// page doesn't follow them or has no room, and at the end. So what was put is the file with the gathered pages laid over
/// it, and after `finish` the file alone. Where a write fails, the call that made it fails, and the gathered pages stay
/// gathered. A page that doesn't follow is written after all that were put before it. Pages that are still gathered when
/// the value is dropped are not written. Pages that are put after `finish` are written into the file itself.
pub struct DiskTarget<'a, R: Files<File = File>> {
    alloc: Global,
    files: &'a R,
    file: Option<File>,
    part: Option<Part>,
    gathered: Gathered,
    pages: Option<u64>,
    finished: bool,
    created: u64,
    faults: u64,
}

impl<'a, R: Files<File = File>> Model for DiskTarget<'a, R> {
    ghost use Rattle.std.specs.Prelude.{is_some};
    ghost use Rattle.e57_disk.specs.Disk.{DiskFile};

    ghost Value = { DiskFile };

    ghost view = { λ t. record { pages = t.pages; beside = is_some t.part; finished = t.finished; created = t.created; faults = t.faults } };
}

impl<'a, R: Files<File = File>> DiskTarget<'a, R> {
    /// No file is created. Takes no memory; the first file that is created takes some for 64 gathered pages, and without
    /// it each page is written by itself.
    pub fn new(alloc: Global, files: &'a R) -> Self
        ensures { result ≡ no_file }
    {
        DiskTarget {
            alloc,
            files,
            file: None,
            part: None,
            gathered: Gathered::new(alloc),
            pages: None,
            finished: false,
            created: 0,
            faults: 0,
        }
    }
}

impl<R: Files<File = File>> Drop for DiskTarget<'_, R> {
    /// Removes a part that was not finished.
    fn drop(self) {
        let DiskTarget {
            alloc: _,
            files,
            file: _,
            part,
            gathered: _,
            pages: _,
            finished: _,
            created: _,
            faults: _,
        } = self;
        if let Some(part) = part {
            part.remove(files);
        }
    }
}

// Creates a file of this name, or a part beside it.
fn create_file<R: Files<File = File>>(
    alloc: Global,
    files: &R,
    name: &str,
) -> io::Result<(File, Option<Part>)> {
    match find_place(alloc, files, name)? {
        Place::Beside { out, mode } => {
            let (file, part) = Part::create(alloc, files, out, mode)?;
            Ok((file, Some(part)))
        }
        Place::InPlace => Ok((fs::create(files, name)?, None)),
    }
}

// Gives a written file its name, or keeps it in place.
fn keep<R: Files<File = File>>(files: &R, file: &File, part: &Option<Part>) -> io::Result<()> {
    match part {
        Some(part) => part.rename(files, file),
        None => sync(file),
    }
}

impl<R: Files<File = File>> Target for DiskTarget<'_, R> {
    ghost view = { file_view };

    /// Creates the file of this name, beside what has the name or in place. It fails where neither can be, or there is no
    /// memory for the names.
    fn create(&mut self, name: &str) -> Result<(), Failed>
        ensures creates { Creates (file_view self.old) name.now result (file_view self.new) }
        ensures after { self.new ≡ file_created result self.new.beside self.old }
    {
        if let Some(part) = self.part.take() {
            part.remove(self.files);
        }
        self.finished = false;
        self.created = self.created.saturating_add(1);
        match create_file(self.alloc, self.files, name) {
            Ok((file, part)) => {
                self.gathered.start();
                self.file = Some(file);
                self.part = part;
                self.pages = Some(0);
                Ok(())
            }
            Err(_) => {
                self.file = None;
                self.pages = None;
                self.faults = self.faults.saturating_add(1);
                Err(Failed)
            }
        }
    }

    /// Gathers or writes page `n`. It fails where the system fails to write it or pages that were gathered.
    fn put_page(&mut self, n: u64, page: &[u8; 1024]) -> Result<(), Failed>
        requires { TakesPage (file_view self.old) n }
        ensures puts { PutsPage (file_view self.old) n page.now result (file_view self.new) }
        ensures after { self.new ≡ file_put n result self.old }
    {
        self.finished = false;
        let is_written = match &self.file {
            Some(file) => n < MAX_PAGES && self.gathered.put(file, n, page),
            None => false,
        };
        if !is_written {
            self.faults = self.faults.saturating_add(1);
            return Err(Failed);
        }
        if self.pages == Some(n) {
            self.pages = Some(n + 1);
        }
        Ok(())
    }

    /// Writes the gathered pages, asks the system to keep the file, and gives it its name. Where one of these fails, what
    /// had the name stays as it was, and the call may be made again.
    fn finish(&mut self) -> Result<(), Failed>
        ensures finishes { Finishes (file_view self.old) result (file_view self.new) }
        ensures after { self.new ≡ file_finished result self.old }
    {
        let is_kept = match &self.file {
            Some(file) => {
                self.gathered.write(file) && keep(self.files, file, &self.part).is_ok()
            }
            None => false,
        };
        self.finished = is_kept;
        if is_kept {
            self.part = None;
            return Ok(());
        }
        self.faults = self.faults.saturating_add(1);
        Err(Failed)
    }
}
