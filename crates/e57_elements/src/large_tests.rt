//! A large text, read and written back.

use crate::{MAX_TEXT, read_elements, write_elements};
use std::alloc::{AllocError, Global};
use std::test::Fail;

/// A word so many times.
fn add_times(out: &mut Vec<u8>, word: &[u8], times: usize) -> Result<(), AllocError> {
    for _ in 0..times {
        out.extend_from_slice(word)?;
    }
    Ok(())
}

/// An element with a long value, a long run of text, long text after it between two marks, and many children.
fn large(
    alloc: Global,
    open: &[u8],
    word: &[u8],
    close: &[u8],
    children: usize,
) -> Result<Vec<u8>, AllocError> {
    let mut text = Vec::new(alloc);
    text.extend_from_slice(b"<?xml version=\"1.0\" encoding=\"UTF-8\"?>\n<a b=\"".as_slice())?;
    add_times(&mut text, b"v&#9;".as_slice(), 600_000)?;
    text.extend_from_slice(b"\">".as_slice())?;
    add_times(&mut text, b"r&amp;".as_slice(), 600_000)?;
    text.extend_from_slice(open)?;
    add_times(&mut text, word, 600_000)?;
    text.extend_from_slice(close)?;
    add_times(&mut text, b"<c/>".as_slice(), children)?;
    text.extend_from_slice(b"</a>".as_slice())?;
    Ok(text)
}

#[test]
fn large_text(rt: HostRuntime) -> Result<(), Fail> {
    let alloc = rt.alloc();
    let children = 100_000;
    let text = large(
        alloc,
        b"<![CDATA[".as_slice(),
        b"d<&".as_slice(),
        b"]]>".as_slice(),
        children,
    )?;
    let want = large(
        alloc,
        b"".as_slice(),
        b"d&lt;&amp;".as_slice(),
        b"".as_slice(),
        children,
    )?;
    if text.len() > MAX_TEXT {
        return Err(AllocError.into());
    }
    let Ok(tree) = read_elements(alloc, &text) else {
        return Err(AllocError.into());
    };
    let found = write_elements(alloc, &tree)?;
    assert_eq!(rt; tree.len(), 1 + children);
    assert!(rt; found.as_slice() == want.as_slice(), "written back");
    Ok(())
}
