//! The part: a file that is written beside the one whose place it takes.

use std::alloc::Global;
use std::fs::{File, OpenFile, OpenOptions, Permissions};
use std::io::ErrorKind;
use std::os::unix::fs::{OpenOptionsExt, PermissionsExt};
use std::rt::Files;
use std::{fs, io};

// How many names a part may have; those that are taken are passed over.
const PART_NAMES: u32 = 100;

/// A file that is written beside the one whose place it takes.
#[derive(Drop)]
pub struct Part {
    name: String,
    // The name that it gets, and the mode of the file that has it now.
    out: String,
    mode: Option<u32>,
}

impl Part {
    /// Creates a part for the file `out` in the same folder, with the first name that is free. Where there is an old file,
    /// of this mode, the part is its owner's alone until it is renamed.
    pub fn create<R: Files<File = File>>(
        alloc: Global,
        files: &R,
        out: String,
        mode: Option<u32>,
    ) -> io::Result<(File, Part)> {
        let mut options = OpenOptions::new();
        options.write(true).create_new(true);
        if mode.is_some() {
            options.mode(0o600);
        }
        for k in 0..PART_NAMES {
            let name = format!(in alloc; "{}/.e57-{k}.part", folder_of(out.as_str()))?;
            match options.open(files, name.as_str()) {
                Ok(file) => return Ok((file, Part { name, out, mode })),
                Err(error) if error.kind() == ErrorKind::AlreadyExists => {}
                Err(error) => return Err(error),
            }
        }
        Err(io::Error::from(ErrorKind::AlreadyExists))
    }

    /// Puts the part, which is this open file, in the old file's place, with its permissions. Where this fails, both
    /// stay.
    pub fn rename<R: Files<File = File>>(&self, files: &R, file: &File) -> io::Result<()> {
        if let Some(mode) = self.mode {
            file.set_permissions(Permissions::from_mode(mode))?;
        }
        sync(file)?;
        fs::rename(files, self.name.as_str(), self.out.as_str())?;
        // A folder that can't be synced costs no byte.
        if let Ok(folder) = fs::open(files, folder_of(self.out.as_str())) {
            let _ = folder.sync_all();
        }
        Ok(())
    }

    /// Removes the part.
    pub fn remove<R: Files<File = File>>(&self, files: &R) {
        let _ = fs::remove_file(files, self.name.as_str());
    }
}

/// Asks the system to keep the bytes of a file. A device that can't be synced needs none of it.
pub fn sync(file: &File) -> io::Result<()> {
    match file.sync_all() {
        Err(error) if error.kind() != ErrorKind::InvalidInput => Err(error),
        _ => Ok(()),
    }
}

// The folder that the file of this name lies in.
fn folder_of(name: &str) -> &str {
    match name.rsplit_once('/') {
        Some((folder, _)) if folder.is_empty() => "/",
        Some((folder, _)) => folder,
        None => ".",
    }
}
