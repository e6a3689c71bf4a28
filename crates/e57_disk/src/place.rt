//! Where the bytes of a new file of the disk are written.

ghost use Rattle.std.specs.Prelude.{IfOk};
ghost use Rattle.std.specs.Fs.{metadata_mode, file_type, IsFile};
ghost use Rattle.e57_disk.specs.Place.{permissions, TakesPlaceOf};

use std::alloc::Global;
use std::fs::{File, Metadata, OpenOptions};
use std::io::ErrorKind;
use std::os::unix::fs::{FileTypeExt, MetadataExt};
use std::rt::Files;
use std::{fs, io};

/// Where the bytes of a new file are written.
#[derive(Drop)]
pub enum Place {
    /// Beside the file of this name, whose place they take at the end. `mode` has the permissions of the old file, where
    /// there is one.
    Beside { out: String, mode: Option<u32> },
    /// Into what has the name: a device, or a file that has no name any more.
    InPlace,
}

/// The place for a new file of this name, which may be absent, a regular file, a device, or a link to one of these two.
pub fn find_place<R: Files<File = File>>(
    alloc: Global,
    files: &R,
    name: &str,
) -> io::Result<Place> {
    if name.is_empty() {
        return Err(io::Error::from(ErrorKind::NotFound));
    }
    match fs::symlink_metadata(files, name) {
        Ok(metadata) if metadata.is_symlink() => place_behind(alloc, files, name),
        Ok(metadata) => place_at(alloc, files, name, &metadata),
        Err(error) if error.kind() == ErrorKind::NotFound => Ok(Place::Beside {
            out: String::from_str(alloc, name)?,
            mode: None,
        }),
        Err(error) => Err(error),
    }
}

// The place for a new file of a name that has a file with this metadata. A file that may not be written is not replaced
// either. A pipe has no places for pages.
fn place_at<R: Files<File = File>>(
    alloc: Global,
    files: &R,
    name: &str,
    metadata: &Metadata,
) -> io::Result<Place>
    ensures { IsFile (file_type metadata.now) → IfOk result (TakesPlaceOf name.now (permissions (metadata_mode metadata.now))) }
{
    if metadata.is_file() {
        OpenOptions::new().write(true).open(files, name)?;
        return Ok(Place::Beside {
            out: String::from_str(alloc, name)?,
            mode: Some(metadata.mode() & 0o777),
        });
    }
    let kind = metadata.file_type();
    if kind.is_char_device() || kind.is_block_device() {
        return Ok(Place::InPlace);
    }
    Err(io::Error::from(ErrorKind::InvalidInput))
}

// The place for a new file of the name of a link: that of what it leads to. A link of the system to an open file, as
// /dev/stdout, may lead to one that has no name any more.
fn place_behind<R: Files<File = File>>(alloc: Global, files: &R, name: &str) -> io::Result<Place> {
    let metadata = fs::metadata(files, name)?;
    if !metadata.is_file() {
        return place_at(alloc, files, name, &metadata);
    }
    match files.canonicalize(alloc, name) {
        Ok(path) => {
            let found = fs::symlink_metadata(files, path.as_str())?;
            if !is_same(&found, &metadata) {
                return Err(io::Error::from(ErrorKind::NotFound));
            }
            place_at(alloc, files, path.as_str(), &found)
        }
        Err(error) if error.kind() == ErrorKind::NotFound => Ok(Place::InPlace),
        Err(error) => Err(error),
    }
}

// Whether these are the metadata of one file.
fn is_same(one: &Metadata, other: &Metadata) -> bool {
    one.dev() == other.dev() && one.ino() == other.ino()
}
