//! Short texts with their trees, each fault with its numbers, and the limits.

use crate::{MAX_TEXT, RawTree, read_elements};
use e57_base::TextFault;
use std::alloc::{AllocError, Global};
use std::process::Abort;
use std::test::Fail;

/// The first nodes in preorder, ten at most: size, name, attributes and text.
fn show_tree(alloc: Global, tree: &RawTree) -> Result<Vec<u8>, AllocError> {
    let mut out = Vec::new(alloc);
    for i in 0..tree.len().min(10) {
        let node = tree.node(i);
        out.extend_from_slice(format!(in alloc; "{}", node.size)?.as_bytes())?;
        out.extend_from_slice(node.name.as_slice())?;
        for k in 0..node.attrs.len() {
            let attr = node.attrs.get(k);
            out.extend_from_slice(b" ")?;
            out.extend_from_slice(attr.name.as_slice())?;
            out.extend_from_slice(b"=")?;
            out.extend_from_slice(attr.value.as_slice())?;
        }
        out.extend_from_slice(b"{")?;
        out.extend_from_slice(node.text.as_slice())?;
        out.extend_from_slice(b"}")?;
    }
    Ok(out)
}

/// The tree of a text, or its fault.
fn shown(alloc: Global, text: &[u8]) -> Result<Vec<u8>, Fail> {
    if text.len() > MAX_TEXT {
        return Err(AllocError.into());
    }
    match read_elements(alloc, text) {
        Ok(tree) => Ok(show_tree(alloc, &tree)?),
        Err(TextFault::Refused(fault)) => {
            let mut out = Vec::new(alloc);
            let line = format!(in alloc; "{} {} {}", fault.kind.name(), fault.a, fault.b)?;
            out.extend_from_slice(line.as_bytes())?;
            Ok(out)
        }
        Err(TextFault::Memory) => Err(AllocError.into()),
    }
}

fn check_rows(rt: &impl Abort, alloc: Global, rows: &[(&str, &str)]) -> Result<(), Fail> {
    for (text, want) in rows {
        let found = shown(alloc, text.as_bytes())?;
        assert_eq!(rt; found.as_slice(), want.as_bytes(), "{text}");
    }
    Ok(())
}

#[test]
fn trees(rt: HostRuntime) -> Result<(), Fail> {
    check_rows(
        &rt,
        rt.alloc(),
        &[
            ("<a/>", "1a{}"),
            ("<a></a>", "1a{}"),
            ("<a> </a>", "1a{ }"),
            (
                "\u{FEFF}<?xml version='1.0'?> <!-- c --><a/>&#32;<!-- d -->\n",
                "1a{}",
            ),
            ("<a>x<!-- c -->&lt;<![CDATA[<y>&]]></a>", "1a{x<<y>&}"),
            (
                "<a b='&quot;' c=\"d\"><e/> <f>g</f>\n</a>",
                "3a b=\" c=d{}1e{}1f{g}",
            ),
            ("<a> <b/>x</a>", "2a{ x}1b{}"),
            (
                "<a><b><c/></b><d><e/><f> </f></d></a >",
                "6a{}2b{}1c{}3d{}1e{}1f{ }",
            ),
            (
                "<?xml version=\"1.0\" encoding=\"UTF-8\"?>\n<e57Root type=\"Structure\"><p type=\"CompressedVector\" fileOffset=\"1024\" recordCount=\"3\"><prototype type=\"Structure\"><x type=\"Integer\" minimum=\"0\" maximum=\"7\"/><c type=\"Integer\" minimum=\"5\" maximum=\"5\"/><f type=\"Float\" precision=\"single\"/><s type=\"String\"/></prototype></p></e57Root>",
                "7e57Root type=Structure{}6p type=CompressedVector fileOffset=1024 recordCount=3{}5prototype type=Structure{}1x type=Integer minimum=0 maximum=7{}1c type=Integer minimum=5 maximum=5{}1f type=Float precision=single{}1s type=String{}",
            ),
        ],
    )
}

#[test]
fn faults(rt: HostRuntime) -> Result<(), Fail> {
    let alloc = rt.alloc();
    check_rows(
        &rt,
        alloc,
        &[
            (
                "<e57Root type=\"Structure\"><a type=\"Integer\">5</b></e57Root>",
                "Nest 45 0",
            ),
            ("<e57Root type=\"Structure\">&nbsp;</e57Root>", "Piece 26 0"),
            ("<!DOCTYPE a>", "Piece 0 0"),
            ("", "Nest 0 0"),
            ("<?xml version='1.0' encoding='latin1'?><a/>", "Piece 0 0"),
            ("\u{FEFF}<?xml ?", "Piece 3 0"),
            ("\u{FEFF}<?xml?>", "Nest 10 0"),
            ("<a>", "Nest 3 0"),
            ("<!-- c -->", "Nest 10 0"),
            ("x<a/>", "Nest 0 0"),
            ("<a/>x", "Nest 4 0"),
            ("<a/><a/>", "Nest 4 0"),
            ("<a/></a>", "Nest 4 0"),
            ("<a></a><![CDATA[]]>", "Nest 7 0"),
            ("<![CDATA[]]><a/>", "Nest 0 0"),
            ("<a/>&#120;", "Nest 4 0"),
            ("<a></a", "Piece 3 0"),
            ("<a>\u{1}</a>", "Piece 3 0"),
            ("<a><b></a></b>", "Nest 6 0"),
        ],
    )?;
    assert_eq!(&rt;
        shown(alloc, b"<a>\xC3")?.as_slice(),
        b"XmlUtf8 3 0".as_slice()
    );
    assert_eq!(&rt;
        shown(alloc, b"<\xFF/></a>")?.as_slice(),
        b"XmlUtf8 1 0".as_slice()
    );
    Ok(())
}

/// A word so many times.
fn add_times(out: &mut Vec<u8>, word: &[u8], times: usize) -> Result<(), AllocError> {
    for _ in 0..times {
        out.extend_from_slice(word)?;
    }
    Ok(())
}

/// A tag with so many attributes.
fn add_tag(out: &mut Vec<u8>, alloc: Global, attrs: usize) -> Result<(), Fail> {
    out.extend_from_slice(b"<a")?;
    for k in 0..attrs {
        out.extend_from_slice(format!(in alloc; " b{k}=''")?.as_bytes())?;
    }
    out.extend_from_slice(b"/>")?;
    Ok(())
}

/// Elements within one another, so many above a tag with so many attributes.
fn nested(alloc: Global, depth: usize, attrs: usize) -> Result<Vec<u8>, Fail> {
    let mut text = Vec::new(alloc);
    add_times(&mut text, b"<a>", depth)?;
    add_tag(&mut text, alloc, attrs)?;
    add_times(&mut text, b"</a>", depth)?;
    Ok(text)
}

/// An element with so many children.
fn beside(alloc: Global, children: usize) -> Result<Vec<u8>, Fail> {
    let mut text = Vec::new(alloc);
    text.extend_from_slice(b"<a>")?;
    add_times(&mut text, b"<b/>", children)?;
    text.extend_from_slice(b"</a>")?;
    Ok(text)
}

#[test]
fn limits(rt: HostRuntime) -> Result<(), Fail> {
    let alloc = rt.alloc();
    let rows: [(Vec<u8>, &str); 7] = [
        (nested(alloc, 0, 64)?, "1a b0= b1= b2= b3= "),
        (nested(alloc, 1, 65)?, "TreeLimit 3 1"),
        (nested(alloc, 63, 0)?, "64a{}63a{}62a{}"),
        (nested(alloc, 64, 0)?, "TreeLimit 192 2"),
        (nested(alloc, 64, 65)?, "TreeLimit 192 1"),
        (beside(alloc, (1 << 20) - 1)?, "1048576a{}1b{}"),
        (beside(alloc, 1 << 20)?, "TreeLimit 4194303 3"),
    ];
    for (text, want) in &rows {
        assert!(&rt; shown(alloc, text)?.starts_with(want.as_bytes()), "{want}");
    }
    Ok(())
}
