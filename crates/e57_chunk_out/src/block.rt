//! A block of records, and what is left at a section's end, from the parts of a cloud that is written.

ghost use Rattle.std.specs.Prelude.{◌≡◌, ◌+◌, ◌*◌, ◌<◌, ◌≤◌, false, true, length, Some, MatchResult};
ghost use Rattle.e57_chunk_out.specs.CloudCalls.{block_length, ClosesOn, EndsBlock, HasStrings, IsBetween, IsEven, PassesBlock, PassesSection};
ghost use Rattle.e57_chunk_out.specs.Clouds.{cloud_of, IsCloud};
ghost use Rattle.e57_chunk_out.specs.Going.{LosesRecords};
ghost use Rattle.e57_chunk_out.specs.Sections.{IsAsLeft};

use crate::field_out::FieldOut;
use crate::fields::drop_all;
use crate::section::{Begun, end_section, open_section};
use crate::turn::{Chunks, end_chunk, put_records};
use e57_base::{Target, WriteFault};
use e57_page_out::PagesOut;

/// Writes the whole groups of what waits with a block, and keeps the records behind them.
pub fn put_block<T: Target>(
    fields: &mut [FieldOut],
    chunks: &mut Chunks,
    count: &mut u64,
    section: &mut Option<Begun>,
    out: &mut PagesOut<T>,
) -> Result<(), WriteFault>
    requires cloud { IsCloud fields.old chunks.old count.old section.old }
    requires open { out.old.is_spent ≡ false }
    requires here { IsAsLeft section.old out.old }
    requires some { 0 < block_length (cloud_of fields.old chunks.old count.old section.old false) }
    requires even { IsEven (cloud_of fields.old chunks.old count.old section.old false) }
    requires limit { count.old + block_length (cloud_of fields.old chunks.old count.old section.old false) ≤ chunks.old.at_most }
    ensures { let old = cloud_of fields.old chunks.old count.old section.old false in
        MatchResult result
        (λ _. IsCloud fields.new chunks.new count.new section.new × EndsBlock T.view old out.old (cloud_of fields.new chunks.new count.new section.new false) out.new)
        (λ fault. (out.new.is_spent ≡ true) × LosesRecords T.view out.old (PassesBlock old out.old) (HasStrings old.kinds) fault (T.view out.new.target)) }
{
    let page = match open_section(section, out) {
        Ok(page) => page,
        Err(fault) => return Err(fault),
    };
    let waiting = fields[0].len();
    let left = *count % 8;
    let whole = waiting / 8 * 8;
    if let Err(fault) = put_records(fields, chunks, *count - left, whole, out) {
        return Err(fault);
    }
    drop_all(fields, whole);
    *count += waiting as u64 - left;
    *section = Some(Begun {
        page,
        size: out.size(),
    });
    Ok(())
}

/// Writes what is left, the index, and the header. Answers the section's physical offset.
pub fn put_rest<T: Target>(
    fields: &mut [FieldOut],
    chunks: &mut Chunks,
    count: u64,
    begun: Begun,
    out: &mut PagesOut<T>,
) -> Result<u64, WriteFault>
    requires cloud { IsCloud fields.old chunks.old count (Some begun) }
    requires open { out.old.is_spent ≡ false }
    requires here { IsAsLeft (Some begun) out.old }
    requires between { IsBetween (cloud_of fields.old chunks.old count (Some begun) false) }
    ensures { let old = cloud_of fields.old chunks.old count (Some begun) false in
        MatchResult result
        (λ offset. ClosesOn T.view old out.old offset out.new)
        (λ fault. (out.new.is_spent ≡ true) × LosesRecords T.view out.old (PassesSection old out.old) (HasStrings old.kinds) fault (T.view out.new.target)) }
{
    let _size = out.size();
    let left = count % 8;
    if let Err(fault) = put_records(fields, chunks, count - left, left as usize, out) {
        return Err(fault);
    }
    if let Err(fault) = end_chunk(fields, &mut chunks.run, out) {
        return Err(fault);
    }
    match end_section(begun.page, &chunks.index, out) {
        Ok(offset) => Ok(offset),
        Err(fault) => Err(fault.into()),
    }
}
