//! The real objects over files of the disk.

mod no_room;
mod source;
mod target;

use std::test::*;
use std::{fs, io};

// An empty folder of this name: tests share the folder that they run in.
fn empty_folder(rt: &HostRuntime, name: &str) -> io::Result<()> {
    let _ = fs::remove_dir_all(rt, name);
    fs::create_dir(rt, name)
}

// So many pages, each filled with its number.
fn pages(rt: &HostRuntime, count: u8) -> Result<Vec<u8>, Fail> {
    let mut bytes = Vec::new(rt.alloc());
    for n in 0..count {
        bytes.resize(1024 * (n as usize + 1), n)?;
    }
    Ok(bytes)
}

// A file of so many pages, each filled with its number.
fn write_pages(rt: &HostRuntime, name: &str, count: u8) -> Result<(), Fail> {
    let bytes = pages(rt, count)?;
    fs::write(rt, name, bytes.as_slice())?;
    Ok(())
}
