//! A new file of the disk: when it takes the place of the old one, and when the old one stays.

ghost use Rattle.std.specs.Prelude.{◌≡◌, Some, OnOk};

use super::no_room::NoRoom;
use super::source::first_wrong;
use super::{empty_folder, pages, write_pages};
use crate::{DiskSource, DiskTarget};
use e57_base::{Failed, Source, Target};
use std::fs::Permissions;
use std::os::fd::AsRawFd;
use std::os::unix::fs::{MetadataExt, PermissionsExt, symlink};
use std::test::*;
use std::{fs, io};

// Creates a file of this name, and puts so many pages, each filled with its number.
fn put_pages<T: Target>(target: &mut T, name: &str, count: u8) -> Result<(), Failed>
    ensures { OnOk result ((T.view target.new).pages ≡ Some count) }
{
    target.create(name)?;
    for n in 0..count {
        target.put_page(n as u64, &[n; 1024])?;
    }
    Ok(())
}

// Whether the folder's file `out` has the bytes that it had before, and no part stands beside it.
fn is_kept(rt: &HostRuntime) -> io::Result<bool> {
    let is_old = fs::read(rt, "kept/out")?.as_slice() == b"old".as_slice();
    Ok(is_old && !fs::exists(rt, "kept/.e57-0.part")?)
}

// 70 pages, each filled with its number, but for three of them.
fn changed_pages(rt: &HostRuntime) -> Result<Vec<u8>, Fail> {
    let mut bytes = Vec::new(rt.alloc());
    for n in 0..70u8 {
        let byte = match n {
            0 => 103,
            3 => 104,
            69 => 101,
            _ => n,
        };
        bytes.resize(1024 * (n as usize + 1), byte)?;
    }
    Ok(bytes)
}

// Writes 70 pages, and whether they stood in the part until the end, and then where they belong.
fn is_written(rt: &HostRuntime, name: &str, lies_at: &str, part: &str) -> Result<bool, Fail> {
    let mut target = DiskTarget::new(rt.alloc(), rt);
    put_pages(&mut target, name, 70)?;
    target.put_page(69, &[101; 1024])?;
    target.put_page(3, &[102; 1024])?;
    target.put_page(0, &[103; 1024])?;
    target.put_page(3, &[104; 1024])?;
    let stood_beside = fs::exists(rt, part)?;
    target.finish()?;
    let is_left = fs::exists(rt, part)?;
    let written = fs::read(rt, lies_at)?;
    Ok(stood_beside && !is_left && written.as_slice() == changed_pages(rt)?.as_slice())
}

#[test]
fn a_new_file_takes_its_name_at_the_end(rt: HostRuntime) -> Result<(), Fail> {
    empty_folder(&rt, "new")?;
    fs::create_dir(&rt, "new/inner")?;
    for name in ["new/old", "new/inner/old"] {
        fs::write(&rt, name, "old")?;
        fs::set_permissions(&rt, name, Permissions::from_mode(0o604))?;
    }
    symlink(&rt, "inner/old", "new/link")?;
    symlink(&rt, "link", "new/further")?;
    // A part that a killed process left.
    fs::write(&rt, "new/.e57-0.part", "left")?;
    for (name, lies_at, part) in [
        ("bare", "bare", ".e57-0.part"),
        ("new/new", "new/new", "new/.e57-1.part"),
        ("./new/old", "new/old", "new/.e57-1.part"),
        ("new/further", "new/inner/old", "new/inner/.e57-0.part"),
    ] {
        assert!(rt; is_written(&rt, name, lies_at, part)?, "{name}");
    }
    for name in ["new/old", "new/inner/old"] {
        assert_eq!(rt; fs::metadata(&rt, name)?.mode() & 0o7777, 0o604);
    }
    assert!(rt; fs::symlink_metadata(&rt, "new/link")?.is_symlink());
    assert_eq!(rt;
        fs::read(&rt, "new/.e57-0.part")?.as_slice(),
        b"left".as_slice()
    );
    fs::remove_file(&rt, "bare")?;
    fs::remove_dir_all(&rt, "new")?;
    Ok(())
}

#[test]
fn the_old_file_is_kept_whatever_fails(rt: HostRuntime) -> Result<(), Fail> {
    empty_folder(&rt, "kept")?;
    fs::write(&rt, "kept/out", "old")?;
    // A refusal: the target is let go.
    let mut target = DiskTarget::new(rt.alloc(), &rt);
    put_pages(&mut target, "kept/out", 70)?;
    assert!(rt; fs::exists(&rt, "kept/.e57-0.part")?);
    drop(target);
    assert!(rt; is_kept(&rt)?);
    // A failed page.
    let full = NoRoom(&rt);
    let mut target = DiskTarget::new(rt.alloc(), &full);
    put_pages(&mut target, "kept/out", 64)?;
    assert!(rt; target.put_page(64, &[64; 1024]).is_err());
    drop(target);
    assert!(rt; is_kept(&rt)?);
    // A failed end, since the gathered pages can't be written, and then another file.
    let mut target = DiskTarget::new(rt.alloc(), &full);
    put_pages(&mut target, "kept/out", 3)?;
    assert!(rt; target.finish().is_err());
    assert!(rt; target.create("kept/no/folder").is_err());
    assert!(rt; is_kept(&rt)?);
    drop(target);
    // A failed end, since the part is gone.
    let mut target = DiskTarget::new(rt.alloc(), &rt);
    put_pages(&mut target, "kept/out", 3)?;
    fs::remove_file(&rt, "kept/.e57-0.part")?;
    assert!(rt; target.finish().is_err());
    drop(target);
    assert!(rt; is_kept(&rt)?);
    fs::remove_dir_all(&rt, "kept")?;
    Ok(())
}

#[test]
fn a_file_is_read_while_it_is_written_anew(rt: HostRuntime) -> Result<(), Fail> {
    for is_link in [false, true] {
        empty_folder(&rt, "names")?;
        write_pages(&rt, "names/scan", 140)?;
        if is_link {
            symlink(&rt, "scan", "names/other")?;
        } else {
            fs::hard_link(&rt, "names/scan", "names/other")?;
        }
        let mut source = DiskSource::new(rt.alloc(), &rt);
        let size = source.open("names/scan")?;
        assert_eq!(rt; size, 1024 * 140);
        let mut target = DiskTarget::new(rt.alloc(), &rt);
        put_pages(&mut target, "names/other", 2)?;
        assert_eq!(rt; first_wrong(&mut source, &[139, 138, 3, 0]), None);
        target.finish()?;
        assert_eq!(rt; first_wrong(&mut source, &[1, 2, 3, 80, 139]), None);
        let left = if is_link { 2 } else { 140 };
        assert!(rt; fs::read(&rt, "names/scan")?.as_slice() == pages(&rt, left)?.as_slice());
        assert!(rt; fs::read(&rt, "names/other")?.as_slice() == pages(&rt, 2)?.as_slice());
    }
    fs::remove_dir_all(&rt, "names")?;
    Ok(())
}

#[test]
fn what_is_no_file_is_not_replaced(rt: HostRuntime) -> Result<(), Fail> {
    empty_folder(&rt, "places")?;
    symlink(&rt, "absent", "places/dangling")?;
    symlink(&rt, "/dev/null", "places/null")?;
    let (reader, writer) = io::pipe(&rt)?;
    let pipe = format!(in rt.alloc(); "/proc/self/fd/{}", writer.as_raw_fd())?;
    let mut target = DiskTarget::new(rt.alloc(), &rt);
    for name in [
        "",
        "places/new/",
        "places/no/folder",
        "places",
        "places/",
        "places/dangling",
        pipe.as_str(),
    ] {
        assert!(rt; target.create(name).is_err(), "{name}");
    }
    drop(reader);
    assert!(rt; !fs::exists(&rt, "places/absent")?);
    // Devices are written in place.
    for (name, is_kept) in [
        ("/dev/null", true),
        ("places/null", true),
        ("/dev/full", false),
    ] {
        put_pages(&mut target, name, 64)?;
        assert_eq!(rt; target.finish().is_ok(), is_kept, "{name}");
    }
    assert!(rt; !fs::exists(&rt, "places/.e57-0.part")?);
    assert!(rt; fs::symlink_metadata(&rt, "places/null")?.is_symlink());
    fs::remove_dir_all(&rt, "places")?;
    Ok(())
}
