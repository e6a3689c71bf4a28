//! Written spellings of trees that are read and of one that is made.

use crate::{MAX_TEXT, TreeOut, read_elements, write_elements};
use std::alloc::{AllocError, Global};
use std::test::Fail;

/// The written spelling of the tree of a text.
fn written(alloc: Global, text: &[u8]) -> Result<Vec<u8>, Fail> {
    if text.len() > MAX_TEXT {
        return Err(AllocError.into());
    }
    match read_elements(alloc, text) {
        Ok(tree) => Ok(write_elements(alloc, &tree)?),
        Err(_fault) => Err(AllocError.into()),
    }
}

#[test]
fn spellings(rt: HostRuntime) -> Result<(), Fail> {
    let rows = [
        ("<a></a>", "<a/>"),
        ("<a b = 'c'\n> </a >", "<a b=\"c\"> </a>"),
        (
            "<a v='&lt;&amp;&gt;&quot;&apos;&#9;&#10;&#13;\u{E9}'>x&lt;&amp;&gt;&#13;\t\n\"'\u{E9}<b/><c><!-- d --></c>]]&gt;<e>f</e></a>",
            "<a v=\"&lt;&amp;&gt;&quot;'&#9;&#10;&#13;\u{E9}\">x&lt;&amp;&gt;&#13;\t\n\"'\u{E9}]]&gt;<b/><c/><e>f</e></a>",
        ),
        (
            "<e57Root type=\"Structure\"><p type=\"CompressedVector\" fileOffset=\"1024\" recordCount=\"3\"><prototype type=\"Structure\"><x type=\"Integer\" minimum=\"0\" maximum=\"7\"/><c type=\"Integer\" minimum=\"5\" maximum=\"5\"/><f type=\"Float\" precision=\"single\"/><s type=\"String\"/></prototype></p></e57Root>",
            "<e57Root type=\"Structure\"><p type=\"CompressedVector\" fileOffset=\"1024\" recordCount=\"3\"><prototype type=\"Structure\"><x type=\"Integer\" minimum=\"0\" maximum=\"7\"/><c type=\"Integer\" minimum=\"5\" maximum=\"5\"/><f type=\"Float\" precision=\"single\"/><s type=\"String\"/></prototype></p></e57Root>",
        ),
    ];
    for (text, want) in rows.iter() {
        let found = written(rt.alloc(), text.as_bytes())?;
        let (front, root) = found.as_slice().split_at(found.len().min(39));
        assert_eq!(rt;
            front,
            b"<?xml version=\"1.0\" encoding=\"UTF-8\"?>\n".as_slice()
        );
        assert_eq!(rt; root, want.as_bytes(), "{text}");
    }
    Ok(())
}

#[test]
fn made(rt: HostRuntime) -> Result<(), Fail> {
    let mut tree = TreeOut::new(rt.alloc())?;
    tree.start(b"a".as_slice())?;
    tree.attr(b"b".as_slice(), b"c".as_slice())?;
    tree.text(b"d".as_slice())?;
    tree.start(b"e".as_slice())?;
    tree.end();
    tree.end();
    let tree = tree.finish();
    let found = write_elements(rt.alloc(), &tree)?;
    let want = b"<?xml version=\"1.0\" encoding=\"UTF-8\"?>\n<a b=\"c\">d<e/></a>";
    assert_eq!(rt; found.as_slice(), want.as_slice());
    Ok(())
}
