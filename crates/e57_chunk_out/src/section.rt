//! The beginning and the end of a compressed vector section.

ghost use Rattle.std.specs.Prelude.{◌≡◌, ◌+◌, ◌*◌, ◌<◌, ◌≤◌, ◌++◌, [], true, false, length, replicate, Some, None, MatchResult};
ghost use Rattle.std.specs.Option.{option_map};
ghost use Rattle.e57_base.specs.MemTarget.{with_piece};
ghost use Rattle.e57_layout.specs.Headers.{section_head};
ghost use Rattle.e57_layout.specs.Written.{index_spelled, most_levels, packets_bytes, physical, root_place};
ghost use Rattle.e57_page.specs.Place.{payload_length};
ghost use Rattle.e57_page_out.specs.Sealed.{filled, pages_for};
ghost use Rattle.e57_page_out.specs.Sequences.{Loses};
ghost use Rattle.e57_page_out.specs.Writing.{most_bytes, IsBeingWritten, Writes};
ghost use Rattle.e57_chunk_out.specs.Going.{LosesRecords};
ghost use Rattle.e57_chunk_out.specs.Sections.{header_of, index_packets, BeginsOn, IsAsLeft, OpensOn, PassesHeader};

use e57_base::{PutFault, Target, WriteFault};
use e57_index_out::IndexOut;
use e57_layout::SectionHeader;
use e57_packet::write_section_header;
use e57_page::physical_of;
use e57_page_out::PagesOut;

/// The logical bytes of a page.
const PAYLOAD: u64 = 1020;

/// The bytes of a section's header.
const HEADER: u64 = 32;

/// Where a section begins, and the size of the file as the last call left it.
#[derive(Clone, Copy, Drop)]
pub struct Begun {
    /// The number of its first page.
    pub page: u64,
    /// The logical bytes of the file.
    pub size: u64,
}

/// The first page of the section, which is begun if it wasn't yet.
pub fn open_section<T: Target>(
    section: &Option<Begun>,
    out: &mut PagesOut<T>,
) -> Result<u64, WriteFault>
    requires unspent { out.old.is_spent ≡ false }
    requires here { IsAsLeft section.now out.old }
    ensures { MatchResult result
        (λ page. OpensOn T.view section.now out.old page out.new)
        (λ fault. (out.new.is_spent ≡ true) × LosesRecords T.view out.old (PassesHeader section.now out.old) ⊥ fault (T.view out.new.target)) }
{
    match section {
        Some(begun) => {
            let _size = out.size();
            Ok(begun.page)
        }
        None => match begin_section(out) {
            Ok(page) => Ok(page),
            Err(fault) => Err(fault.into()),
        },
    }
}

/// Begins a section on a fresh page, which is held: 32 zeros stand where its header will. Answers the number of the page.
fn begin_section<T: Target>(out: &mut PagesOut<T>) -> Result<u64, PutFault>
    requires unspent { out.old.is_spent ≡ false }
    requires free { out.old.held ≡ None }
    ensures { MatchResult result
        (λ page. BeginsOn T.view out.old page out.new)
        (λ fault. (out.new.is_spent ≡ true) × Loses T.view out.old (most_bytes < payload_length * pages_for out.old.size + 32) fault (T.view out.new.target)) }
{
    if let Err(fault) = out.fresh_page() {
        return Err(fault);
    }
    let page = out.size() / PAYLOAD;
    out.hold();
    if let Err(fault) = out.put(&[0; 32]) {
        return Err(fault);
    }
    Ok(page)
}

/// Ends the section that begins on this page, which is held: puts the index behind its data, and the header in its place.
/// Answers the section's physical offset.
pub fn end_section<T: Target>(
    page: u64,
    index: &IndexOut,
    out: &mut PagesOut<T>,
) -> Result<u64, PutFault>
    requires unspent { out.old.is_spent ≡ false }
    requires held { out.old.held ≡ Some page }
    requires begun { payload_length * page + 32 ≤ out.old.size }
    requires some { 0 < length index.now.entries }
    ensures { let packets = index_packets out.old.size index.now.entries in
        MatchResult result
        (λ place. (place ≡ physical (payload_length * page))
        × Writes T.view out.old (option_map (λ b. with_piece (payload_length * page) (section_head (header_of page out.old.size index.now.entries)) (b ++ packets)) out.old.told_bytes) (out.old.size + length packets) None out.new)
        (λ fault. (out.new.is_spent ≡ true) × Loses T.view out.old (most_bytes < out.old.size + length packets) fault (T.view out.new.target)) }
{
    let root = match index.write(out) {
        Ok(root) => root,
        Err(fault) => return Err(fault),
    };
    let mut head = [0; 32];
    let begin = PAYLOAD * page;
    write_section_header(
        &SectionHeader {
            id: 1,
            length: out.size() - begin,
            data_place: physical_of(begin + HEADER),
            index: root,
        },
        &mut head,
    );
    out.patch_held(0, &head);
    if let Err(fault) = out.release() {
        return Err(fault);
    }
    Ok(physical_of(begin))
}
