//! Files of the disk as a source, and a stream as a sink.

ghost use Rattle.std.specs.Prelude.{◌≡◌, ◌≤◌, ◌/◌, IsSomeAnd};

use super::{empty_folder, write_pages};
use crate::{DiskSource, StdSink};
use e57_base::{Failed, Sink, Source};
use std::os::fd::AsRawFd;
use std::os::unix::fs::symlink;
use std::test::*;
use std::{fs, io};

// Reads these pages, and answers the first that failed or isn't filled with its number.
pub fn first_wrong<S: Source>(source: &mut S, order: &[u8]) -> Option<u8>
    requires { IsSomeAnd (S.view source.old).size (λ size. 140 ≤ size / 1024) }
    ensures { (S.view source.new).size ≡ (S.view source.old).size }
{
    let mut page = [0; 1024];
    for n in order {
        let n = (*n).min(139);
        let is_read = source.read_page(n as u64, &mut page).is_ok();
        if !is_read || page != [n; 1024] {
            return Some(n);
        }
    }
    None
}

#[test]
fn a_file_of_the_disk_is_read_by_pages(rt: HostRuntime) -> Result<(), Fail> {
    write_pages(&rt, "scan", 140)?;
    let mut source = DiskSource::new(rt.alloc(), &rt);
    let size = source.open("scan")?;
    assert_eq!(rt; size, 1024 * 140);
    // In a row, from other places, backwards, and again.
    let order = [0, 1, 2, 64, 65, 66, 139, 3, 4, 3, 3, 67, 128, 129, 0, 130];
    assert_eq!(rt; first_wrong(&mut source, &order), None);
    // The file is cut short to 70 pages.
    write_pages(&rt, "scan", 70)?;
    assert_eq!(rt; first_wrong(&mut source, &[40, 41, 42, 68, 69]), None);
    let mut page = [0; 1024];
    assert!(rt; source.read_page(70, &mut page).is_err());
    assert!(rt; source.read_page(71, &mut page).is_err());
    assert!(rt; source.read_page(139, &mut page).is_err());
    fs::remove_file(&rt, "scan")?;
    Ok(())
}

#[test]
fn only_a_regular_file_is_opened(rt: HostRuntime) -> Result<(), Fail> {
    empty_folder(&rt, "kinds")?;
    fs::write(&rt, "kinds/scan", "1234567")?;
    symlink(&rt, "scan", "kinds/link")?;
    symlink(&rt, "absent", "kinds/dangling")?;
    symlink(&rt, "/dev/zero", "kinds/zero")?;
    // A pipe that nobody writes to.
    let (reader, writer) = io::pipe(&rt)?;
    let pipe = format!(in rt.alloc(); "/proc/self/fd/{}", reader.as_raw_fd())?;
    drop(writer);
    let mut source = DiskSource::new(rt.alloc(), &rt);
    for (name, size) in [
        ("kinds/scan", Ok(7)),
        ("kinds/link", Ok(7)),
        ("kinds/absent", Err(Failed)),
        ("kinds/dangling", Err(Failed)),
        ("", Err(Failed)),
        ("kinds", Err(Failed)),
        ("/dev/null", Err(Failed)),
        ("kinds/zero", Err(Failed)),
        (pipe.as_str(), Err(Failed)),
    ] {
        let opened = source.open(name);
        assert_eq!(rt; opened, size, "of {name}");
    }
    fs::remove_dir_all(&rt, "kinds")?;
    Ok(())
}

#[test]
fn the_rest_of_a_file_of_the_disk_is_read(rt: HostRuntime) -> Result<(), Fail> {
    let mut bytes = vec![in rt.alloc(); 7; 1024]?;
    bytes.resize(1500, 8)?;
    fs::write(&rt, "rows", bytes.as_slice())?;
    let mut source = DiskSource::new(rt.alloc(), &rt);
    let size = source.open("rows")?;
    assert_eq!(rt; size, 1500);
    let mut page = [9; 1024];
    assert!(rt; source.read_rest(&mut page).is_ok());
    let mut expected = vec![in rt.alloc(); 8; 476]?;
    expected.resize(1024, 0)?;
    assert_eq!(rt; page.as_slice(), expected.as_slice());
    assert!(rt; source.read_page(0, &mut page).is_ok());
    assert_eq!(rt; page.as_slice(), [7; 1024].as_slice());
    // The file is cut short.
    fs::write(&rt, "rows", [7; 1400].as_slice())?;
    assert!(rt; source.read_rest(&mut page).is_err());
    fs::remove_file(&rt, "rows")?;
    Ok(())
}

#[test]
fn a_stream_takes_what_fits(rt: HostRuntime) {
    let mut room = [0; 4];
    let mut sink = StdSink::new(room.as_mut_slice());
    assert!(rt; sink.put(b"ab").is_ok());
    assert!(rt; sink.put(b"cde").is_err());
    drop(sink);
    assert_eq!(rt; room.as_slice(), b"abcd".as_slice());
}
