//! The objects in memory on their happy paths, each with one failing call.

use crate::{
    AskFault, BytesSource, Failed, Fault, Kind, MemSink, MemSource, MemTarget, RunFault, Sink,
    Source, Target,
};
use std::alloc::{AllocError, Global};
use std::test::Fail;

// A file of a page of sevens, a page of nines, and three bytes more.
fn two_pages(alloc: Global) -> Result<Vec<u8>, AllocError> {
    let mut bytes = vec![in alloc; 7; 1024]?;
    bytes.resize(2048, 9)?;
    bytes.resize(2051, 1)?;
    Ok(bytes)
}

// A page of this byte.
fn page_of(byte: u8) -> [u8; 1024] {
    [byte; 1024]
}

fn is_all(page: &[u8; 1024], byte: u8) -> bool {
    page.iter().all(|b| *b == byte)
}

// Three ones, and then zeros.
fn ends_with_ones(page: &[u8; 1024]) -> bool {
    let (rest, zeros) = page.split_at(3);
    rest.iter().all(|b| *b == 1) && zeros.iter().all(|b| *b == 0)
}

#[test]
fn reads_files(rt: HostRuntime) -> Result<(), Fail> {
    let mut source = MemSource::new(rt.alloc(), 5)?;
    source.add("scan.e57", two_pages(rt.alloc())?)?;
    source.fail_at(1)?;
    source.fail_at(3)?;
    let missing = source.open("other.e57");
    assert_eq!(rt; missing, Err(Failed));
    let listed = source.open("scan.e57");
    assert_eq!(rt; listed, Err(Failed));
    let size = source.open("scan.e57")?;
    assert_eq!(rt; size, 2051);
    let mut page = page_of(0);
    let listed = source.read_page(0, &mut page);
    assert_eq!(rt; listed, Err(Failed));
    assert!(rt; is_all(&page, 0));
    source.read_page(1, &mut page)?;
    assert!(rt; is_all(&page, 9));
    source.read_page(0, &mut page)?;
    assert!(rt; is_all(&page, 7));
    source.read_page(1, &mut page)?;
    source.read_rest(&mut page)?;
    assert!(rt; ends_with_ones(&page));
    assert_eq!(rt; source.asked(), [0, 1, 0, 1, 2].as_slice());
    Ok(())
}

#[test]
fn reads_bytes(rt: HostRuntime) -> Result<(), Fail> {
    let mut source = BytesSource::new(two_pages(rt.alloc())?);
    let size = source.open("any.e57")?;
    assert_eq!(rt; size, 2051);
    let mut page = page_of(0);
    source.read_page(1, &mut page)?;
    assert!(rt; is_all(&page, 9));
    source.read_rest(&mut page)?;
    assert!(rt; ends_with_ones(&page));
    assert_eq!(rt; source.into_bytes().len(), 2051);
    Ok(())
}

#[test]
fn writes_pages(rt: HostRuntime) -> Result<(), Fail> {
    let mut target = MemTarget::new(rt.alloc(), 2, 7)?;
    target.fail_at(4)?;
    target.tear_at(5, 1000)?;
    target.tear_at(5, 3)?;
    target.create("out.e57")?;
    target.put_page(0, &page_of(7))?;
    target.put_page(1, &page_of(9))?;
    let past = target.put_page(2, &page_of(9));
    assert_eq!(rt; past, Err(Failed));
    let listed = target.put_page(0, &page_of(4));
    assert_eq!(rt; listed, Err(Failed));
    let torn = target.put_page(0, &page_of(5));
    assert_eq!(rt; torn, Err(Failed));
    target.finish()?;
    let bytes = target.into_bytes();
    assert_eq!(rt; bytes.len(), 2048);
    for (place, byte) in [(0, 5), (2, 5), (3, 7), (1023, 7), (1024, 9), (2047, 9)] {
        assert_eq!(rt; bytes.get(place), Some(&byte), "at {place}");
    }
    Ok(())
}

#[test]
fn puts_pieces(rt: HostRuntime) -> Result<(), Fail> {
    let mut sink = MemSink::new(rt.alloc(), 5)?;
    sink.fail_at(1)?;
    for (piece, answer, bytes) in [
        ("ab", Ok(()), "ab"),
        ("cd", Err(Failed), "ab"),
        ("cdef", Err(Failed), "abcde"),
        ("", Ok(()), "abcde"),
        ("f", Err(Failed), "abcde"),
    ] {
        assert_eq!(rt; sink.put(piece.as_bytes()), answer, "at {piece}");
        assert_eq!(rt; sink.bytes(), bytes.as_bytes());
    }
    Ok(())
}

#[test]
fn says_faults(rt: HostRuntime) -> Result<(), Fail> {
    for (fault, text) in [
        (RunFault::Refused(Fault::new(Kind::Page, 3, 0)), "Page 3 0"),
        (RunFault::Source, "the source failed"),
        (RunFault::Out, "the output failed"),
        (RunFault::Memory, "out of memory"),
        (
            RunFault::Ask(AskFault::Range { asked: 9, have: 7 }),
            "range 9 7",
        ),
        (RunFault::Ask(AskFault::Large), "large"),
    ] {
        let said = format!(in rt.alloc(); "{fault}")?;
        assert_eq!(rt; said.as_str(), text);
    }
    Ok(())
}
