//! The XML section of a new file, and its end.

ghost use Rattle.std.specs.Prelude.{◌≡◌, ◌+◌, ◌*◌, ◌^◌, ◌<◌, ◌≤◌, false, true, length, None, IfOk, MatchBool, MatchResult};
ghost use Rattle.e57_elements.specs.Tree.{Element, preorder};
ghost use Rattle.e57_page_out.specs.Writing.{IsBeingWritten, most_bytes};
ghost use Rattle.e57_tree.specs.Held.{items_of};
ghost use Rattle.e57_file_out.specs.Closing.{BreaksOff, ClosesFile, IsTooLong, IsWithinFile, LeavesFile, xml_text as the_xml_text};

use e57_base::{PutFault, Target, WriteFault};
use e57_elements::write_elements;
use e57_page::Header;
use e57_page_out::PagesOut;
use e57_tree::Tree;
use std::alloc::{AllocError, Global};

/// The most bytes of an XML section.
const MOST_TEXT: usize = 1 << 26;

/// The most logical bytes of a file.
const MOST_BYTES: u64 = 1020 << 38;

/// The bytes and the logical bytes of a page.
const PAGE: u64 = 1024;

const PAYLOAD: u64 = 1020;

/// Puts the XML section of a tree from a fresh page on, with these physical offsets of its clouds and blobs, one for each in
/// document order and 0 for a cloud of no records, and closes the file with its header (ASTM E2807, file header and XML
/// section). Answers the file's length in bytes. No page is held. `out` is spent after every answer.
///
/// Refuses `Memory`, and else `Large` if the text has more than 2^26 bytes, or a page from number 2^38 on would be begun;
/// then nothing was put. `Target` if the target failed: it holds no whole file, or one without its header.
///
/// Takes memory for the tree and the text.
pub fn close_file<T: Target>(
    alloc: Global,
    tree: &Tree,
    places: &[u64],
    out: &mut PagesOut<T>,
) -> Result<u64, WriteFault>
    requires places { (e : Element) → tree.now ≡ preorder e → length places.now ≡ length (items_of e) }
    requires unspent { out.old.is_spent ≡ false }
    requires free { out.old.held ≡ None }
    ensures spent { out.new.is_spent ≡ true }
    ensures closed { (e : Element) → tree.now ≡ preorder e → MatchResult result
        (λ total. ClosesFile T.view out.old (the_xml_text e places.now) total out.new)
        (λ fault. LeavesFile T.view out.old (the_xml_text e places.now) fault (T.view out.new.target)) }
{
    let size = out.size();
    let Ok(text) = xml_text(alloc, tree, places) else {
        out.give_up();
        return Err(WriteFault::Memory);
    };
    if !is_within(size, &text) {
        out.give_up();
        return Err(WriteFault::Large);
    }
    close_with(&text, out)
}

/// The text of the XML section.
#[tactic(auto, unfolding(crate::specs::Closing::xml_text))]
fn xml_text(alloc: Global, tree: &Tree, places: &[u64]) -> Result<Vec<u8>, AllocError>
    requires { (e : Element) → tree.now ≡ preorder e → length places.now ≡ length (items_of e) }
    ensures { (e : Element) → tree.now ≡ preorder e → IfOk result (λ text. text.items ≡ the_xml_text e places.now) }
{
    let raw = tree.with_places(alloc, places)?;
    write_elements(alloc, &raw)
}

/// Whether a file that has so many logical bytes takes a text as its XML section, from a fresh page on.
#[tactic(auto, unfolding(e57_page_out::specs::Sealed::pages_for))]
fn is_within(size: u64, text: &[u8]) -> bool
    requires { size ≤ most_bytes }
    ensures { MatchBool result (IsWithinFile size text.now) (IsTooLong size text.now) }
{
    if text.len() > MOST_TEXT {
        return false;
    }
    PAYLOAD * size.div_ceil(PAYLOAD) + text.len() as u64 <= MOST_BYTES
}

/// Puts a text as the XML section, and closes the file.
fn close_with<T: Target>(text: &[u8], out: &mut PagesOut<T>) -> Result<u64, WriteFault>
    requires state { IsBeingWritten T.view out.old }
    requires free { out.old.held ≡ None }
    requires fits { IsWithinFile out.old.size text.now }
    ensures spent { out.new.is_spent ≡ true }
    ensures closed { MatchResult result
        (λ total. ClosesFile T.view out.old text.now total out.new)
        (λ fault. (fault ≡ WriteFault.Target) × BreaksOff T.view out.old text.now (T.view out.new.target)) }
{
    if let Err(_) = out.fresh_page() {
        return Err(WriteFault::Target);
    }
    let xml_place = out.place();
    if let Err(_) = out.put(text) {
        return Err(WriteFault::Target);
    }
    let header = Header {
        length: PAGE * out.size().div_ceil(PAYLOAD),
        xml_place,
        xml_length: text.len() as u64,
    };
    match out.close(&header) {
        Ok(total) => Ok(total),
        Err(_) => Err(WriteFault::Target),
    }
}
