//! The written spelling of a tree.

ghost use Rattle.std.specs.Prelude.{◌≡◌, ◌≤◌, ◌∷◌, ◌++◌, [], List, codes, drop, length, IfOk, OnOk};
ghost use Rattle.e57_elements.specs.declared.tree.RawNode.{RawNode};
ghost use Rattle.e57_elements.specs.Limits.{max_elements};
ghost use Rattle.e57_elements.specs.Tree.{Element, preorder};
ghost use Rattle.e57_elements.specs.Lawful.{IsLawful};
ghost use Rattle.e57_elements.specs.Spells.{Spells};
ghost use Rattle.e57_elements.specs.Spelling.{text_byte, value_byte, written, attrs_spelling, element_spelling, spelling};
ghost use Rattle.e57_elements.specs.Places.{StandsAt, WritesElement};

use crate::tree::{RawNode, RawTree};
use e57_pieces::{Attr, Attrs};
use std::alloc::{AllocError, Global};

/// The bytes before the root.
const DECLARATION: &[u8; 39] = b"<?xml version=\"1.0\" encoding=\"UTF-8\"?>\n";

/// The size of a node without children.
const LEAF: u32 = 1;

/// The written spelling of a tree: the declaration, a line feed, and the root. An element without text and children is
/// an empty tag; any other is a start tag, its text, its children, and an end tag. There is no CDATA and no comment.
pub fn write_elements(alloc: Global, tree: &RawTree) -> Result<Vec<u8>, AllocError>
    ensures spelling { (e : Element) → tree.now ≡ preorder e → IfOk result (λ bytes. bytes.items ≡ spelling e) }
    ensures spells { (e : Element) → tree.now ≡ preorder e → IsLawful e → IfOk result (λ bytes. Spells bytes.items e) }
{
    let mut out = Vec::with_capacity(alloc, tree.len())?;
    out.extend_from_slice(DECLARATION.as_slice())?;
    write_element(&mut out, tree, 0)?;
    Ok(out)
}

/// A law, which does nothing: the written spelling of a lawful tree spells that tree.
pub fn spelling_spells()
    ensures { (e : Element) → IsLawful e → Spells (spelling e) e }
{}

/// Writes the element at a place. It calls itself for the children, so at most to the depth of the tree.
fn write_element(out: &mut Vec<u8>, tree: &RawTree, place: usize) -> Result<(), AllocError>
    requires stands { StandsAt tree.now place }
    requires few { length tree.now ≤ max_elements }
    ensures { WritesElement tree.now place result out.old.items out.new.items }
{
    let node = tree.node(place);
    write_tag(out, node)?;
    if node.size == LEAF && node.text.as_slice().is_empty() {
        out.extend_from_slice(b"/>".as_slice())?;
        return Ok(());
    }
    out.extend_from_slice(b">".as_slice())?;
    write_text(out, node.text.as_slice())?;
    let end = place + node.size as usize;
    let mut child = place + 1;
    while child < end {
        write_element(out, tree, child)?;
        child += tree.node(child).size as usize;
    }
    write_end(out, node.name.as_slice())
}

/// Writes a start tag or an empty tag up to its close.
fn write_tag(out: &mut Vec<u8>, node: &RawNode) -> Result<(), AllocError>
    ensures { OnOk result (out.new.items ≡ out.old.items ++ (codes "<" ++ (node.now.name ++ attrs_spelling node.now.attrs))) }
{
    out.extend_from_slice(b"<".as_slice())?;
    out.extend_from_slice(node.name.as_slice())?;
    write_attrs(out, &node.attrs)
}

/// Writes an end tag.
fn write_end(out: &mut Vec<u8>, name: &[u8]) -> Result<(), AllocError>
    ensures { OnOk result (out.new.items ≡ out.old.items ++ (codes "</" ++ (name.now ++ codes ">"))) }
{
    out.extend_from_slice(b"</".as_slice())?;
    out.extend_from_slice(name)?;
    out.extend_from_slice(b">".as_slice())?;
    Ok(())
}

/// Writes attributes, a space before each.
fn write_attrs(out: &mut Vec<u8>, attrs: &Attrs) -> Result<(), AllocError>
    ensures { OnOk result (out.new.items ≡ out.old.items ++ attrs_spelling attrs.now) }
{
    for i in 0..attrs.len() {
        write_attr(out, attrs.get(i))?;
    }
    Ok(())
}

/// Writes a space, the name, `=`, and the value between `"`.
fn write_attr(out: &mut Vec<u8>, attr: &Attr) -> Result<(), AllocError>
    ensures { OnOk result (out.new.items ≡ out.old.items ++ attrs_spelling (attr.now ∷ [])) }
{
    out.extend_from_slice(b" ".as_slice())?;
    out.extend_from_slice(attr.name.as_slice())?;
    out.extend_from_slice(b"=\"".as_slice())?;
    write_value(out, attr.value.as_slice())?;
    out.extend_from_slice(b"\"".as_slice())?;
    Ok(())
}

/// Writes a value with its references.
fn write_value(out: &mut Vec<u8>, value: &[u8]) -> Result<(), AllocError>
    ensures { OnOk result (out.new.items ≡ out.old.items ++ written value_byte value.now) }
{
    for b in value {
        write_value_byte(out, *b)?;
    }
    Ok(())
}

/// Writes a text with its references.
fn write_text(out: &mut Vec<u8>, text: &[u8]) -> Result<(), AllocError>
    ensures { OnOk result (out.new.items ≡ out.old.items ++ written text_byte text.now) }
{
    for b in text {
        write_text_byte(out, *b)?;
    }
    Ok(())
}

/// Writes a byte of a value.
#[tactic(auto, unfolding(crate::specs::Spelling::value_byte))]
fn write_value_byte(out: &mut Vec<u8>, byte: u8) -> Result<(), AllocError>
    ensures { OnOk result (out.new.items ≡ out.old.items ++ value_byte byte) }
{
    match byte {
        b'"' => out.extend_from_slice(b"&quot;".as_slice()),
        b'\t' => out.extend_from_slice(b"&#9;".as_slice()),
        b'\n' => out.extend_from_slice(b"&#10;".as_slice()),
        _ => write_text_byte(out, byte),
    }
}

/// Writes a byte of a text.
#[tactic(auto, unfolding(crate::specs::Spelling::text_byte))]
fn write_text_byte(out: &mut Vec<u8>, byte: u8) -> Result<(), AllocError>
    ensures { OnOk result (out.new.items ≡ out.old.items ++ text_byte byte) }
{
    match byte {
        b'&' => out.extend_from_slice(b"&amp;".as_slice()),
        b'<' => out.extend_from_slice(b"&lt;".as_slice()),
        b'>' => out.extend_from_slice(b"&gt;".as_slice()),
        b'\r' => out.extend_from_slice(b"&#13;".as_slice()),
        _ => {
            out.push(byte)?;
            Ok(())
        }
    }
}
