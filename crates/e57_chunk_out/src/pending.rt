//! Items of one field that wait.

ghost use Rattle.std.specs.Prelude.{FitsSigned, ◌^◌, ◌≡◌, ◌⊎◌, ℕ, ◌+◌, ◌-◌, ◌*◌, ◌/◌, ◌<◌, ◌≤◌, ◌≤ℤ◌, ◌++◌, List, [], ◌∷◌, length, map, take, drop, slice_index_or, IfOk, MatchResult};
ghost use Rattle.std.specs.Int.{w64};
ghost use Rattle.e57_layout.specs.Values.{item_kind, IsValidField, ItemKind, Value, IsKind};
ghost use Rattle.e57_layout.specs.Widths.{width as width_of};
ghost use Rattle.e57_layout.specs.Items.{AreItems, field_bytes};
ghost use Rattle.e57_chunk_out.specs.Texts.{strings_at, AreEnds};
ghost use Rattle.e57_chunk_out.specs.Waiting.{most_waiting, kind_in, items_in, part, IsPending, IsPushed, IsLetGo};

use crate::bytes::{clear, let_go, place};
use crate::gathered::{add_texts, begin_of, drop_texts};
use crate::texts::{all_texts_size, write_texts};
use byteorder::{ByteOrder, LittleEndian};
use e57_lanes::pack;
use e57_layout::{Field, FieldKind};
use std::alloc::{AllocError, Global};

/// How many items wait at most: seven of the blocks before, and 1024 of a block.
pub const PLACES: usize = 1031;

/// Items of one field, in a row from the front.
#[derive(Drop)]
pub enum Pending {
    /// Integers within limits, scaled or not, and how many bits one has.
    Ints {
        min: i64,
        max: i64,
        width: u8,
        items: Vec<i64>,
    },
    /// Floating point numbers of 32 bits, as words.
    Bits32 {
        items: Vec<u32>,
    },
    /// Floating point numbers of 64 bits, as words.
    Bits64 {
        items: Vec<u64>,
    },
    /// Strings, one behind another, and where each of them ends in the bytes.
    Texts {
        bytes: Vec<u8>,
        ends: Vec<u64>,
    },
}

/// Places for the items of a field.
pub fn new_pending(alloc: Global, field: &Field) -> Result<Pending, AllocError>
    requires valid { IsValidField field.now }
    ensures kind { IfOk result (λ pending. kind_in pending ≡ item_kind field.now.kind) }
    ensures none { IfOk result (λ pending. items_in pending 0 ≡ []) }
    ensures is { IfOk result (λ pending. IsPending pending 0) }
{
    match field.kind {
        FieldKind::Int { min, max } => new_ints(alloc, min, max, field.width),
        FieldKind::Scaled { min, max, .. } => new_ints(alloc, min, max, field.width),
        FieldKind::Bits32 => {
            let items = vec![in alloc; 0; PLACES]?;
            Ok(Pending::Bits32 { items })
        }
        FieldKind::Bits64 => {
            let items = vec![in alloc; 0; PLACES]?;
            Ok(Pending::Bits64 { items })
        }
        FieldKind::Text => new_texts(alloc),
    }
}

/// Places for integers within limits.
fn new_ints(alloc: Global, min: i64, max: i64, width: u8) -> Result<Pending, AllocError>
    requires order { min ≤ℤ max }
    requires fits { width ≡ width_of min max }
    ensures kind { IfOk result (λ pending. kind_in pending ≡ ItemKind.integers min max) }
    ensures none { IfOk result (λ pending. items_in pending 0 ≡ []) }
    ensures is { IfOk result (λ pending. IsPending pending 0) }
{
    let items = vec![in alloc; 0; PLACES]?;
    Ok(Pending::Ints {
        min,
        max,
        width,
        items,
    })
}

/// Places for strings.
#[tactic(auto, unfolding(crate::specs::Texts::strings_at, crate::specs::Texts::AreEnds))]
fn new_texts(alloc: Global) -> Result<Pending, AllocError>
    ensures kind { IfOk result (λ pending. kind_in pending ≡ ItemKind.strings) }
    ensures none { IfOk result (λ pending. items_in pending 0 ≡ []) }
    ensures is { IfOk result (λ pending. IsPending pending 0) }
{
    let ends = vec![in alloc; 0; PLACES]?;
    Ok(Pending::Texts {
        bytes: Vec::new(alloc),
        ends,
    })
}

/// Puts integers behind the first `until` items.
pub fn push_ints(pending: &mut Pending, until: usize, values: &[i64])
    requires pending { IsPending pending.old until }
    requires items { AreItems (kind_in pending.old) (map Value.whole values.now) }
    requires few { until + length values.now ≤ most_waiting }
    ensures { IsPushed pending.old until (map Value.whole values.now) pending.new }
{
    match pending {
        Pending::Ints { items, .. } => place(items, until, values),
        _ => {}
    }
}

/// Puts words of 32 bits behind the first `until` items.
pub fn push_words(pending: &mut Pending, until: usize, values: &[u32])
    requires pending { IsPending pending.old until }
    requires kind { kind_in pending.old ≡ ItemKind.words 32 }
    requires few { until + length values.now ≤ most_waiting }
    ensures { IsPushed pending.old until (map Value.word values.now) pending.new }
{
    match pending {
        Pending::Bits32 { items } => place(items, until, values),
        _ => {}
    }
}

/// Puts words of 64 bits behind the first `until` items.
pub fn push_long_words(pending: &mut Pending, until: usize, values: &[u64])
    requires pending { IsPending pending.old until }
    requires kind { kind_in pending.old ≡ ItemKind.words 64 }
    requires few { until + length values.now ≤ most_waiting }
    ensures { IsPushed pending.old until (map Value.word values.now) pending.new }
{
    match pending {
        Pending::Bits64 { items } => place(items, until, values),
        _ => {}
    }
}

/// Puts strings behind the first `until` items, which end here in the bytes, one behind another, the first beginning at
/// `begin`.
pub fn push_texts(
    pending: &mut Pending,
    until: usize,
    bytes: &[u8],
    begin: usize,
    ends: &[u64],
) -> Result<(), AllocError>
    requires pending { IsPending pending.old until }
    requires ends { AreEnds (length bytes.now) begin ends.now }
    requires kind { kind_in pending.old ≡ ItemKind.strings }
    requires few { until + length ends.now ≤ most_waiting }
    ensures { MatchResult result
        (λ _. IsPushed pending.old until (strings_at bytes.now begin ends.now) pending.new)
        (λ _. IsPushed pending.old until [] pending.new) }
{
    match pending {
        Pending::Texts {
            bytes: held,
            ends: held_ends,
        } => add_texts(held, held_ends, until, bytes, begin, ends),
        _ => Ok(()),
    }
}

/// Lets go of the first `n` of `until` items. Those behind them move to the front.
pub fn drop_front(pending: &mut Pending, n: usize, until: usize)
    requires pending { IsPending pending.old until }
    requires there { n ≤ until }
    ensures { IsLetGo pending.old n until pending.new }
{
    match pending {
        Pending::Ints { items, .. } => let_go(items, n, until),
        Pending::Bits32 { items } => let_go(items, n, until),
        Pending::Bits64 { items } => let_go(items, n, until),
        Pending::Texts { bytes, ends } => drop_texts(bytes, ends, n, until),
    }
}

/// How many bytes `n` items from `from` on have as they are written.
pub fn written_size(pending: &Pending, from: usize, n: usize, until: usize) -> usize
    requires pending { IsPending pending.now until }
    requires there { from + n ≤ until }
    ensures size { result ≡ length (field_bytes (kind_in pending.now) (part from n (items_in pending.now until))) }
    ensures few { result ≤ 2 ^ 35 }
{
    match pending {
        Pending::Ints { width, .. } => ints_size(*width, n),
        Pending::Bits32 { .. } => 4 * n,
        Pending::Bits64 { .. } => 8 * n,
        Pending::Texts { bytes, ends } => all_texts_size(
            bytes,
            begin_of(ends, from),
            &ends[from..from + n],
        ),
    }
}

/// How many bytes `n` integers have.
fn ints_size(width: u8, n: usize) -> usize
    requires { n ≤ 1031 }
    ensures size { result ≡ (width * n + 7) / 8 }
    ensures few { result ≤ 2 ^ 20 }
{
    (width as usize * n + 7) / 8
}

/// Writes `n` items from `from` on. They fill `out`.
pub fn write_items(pending: &Pending, from: usize, n: usize, until: usize, out: &mut [u8])
    requires pending { IsPending pending.now until }
    requires there { from + n ≤ until }
    requires room { length out.old ≡ length (field_bytes (kind_in pending.now) (part from n (items_in pending.now until))) }
    ensures { out.new ≡ field_bytes (kind_in pending.now) (part from n (items_in pending.now until)) }
{
    match pending {
        Pending::Ints {
            min,
            max,
            width,
            items,
        } => write_ints(&items[from..from + n], min, max, *width, out),
        Pending::Bits32 { items } => write_words(&items[from..from + n], out),
        Pending::Bits64 { items } => write_long_words(&items[from..from + n], out),
        Pending::Texts { bytes, ends } => write_texts(
            bytes,
            begin_of(ends, from),
            &ends[from..from + n],
            out,
        ),
    }
}

/// Writes integers as bit fields, with zero bits up to the last byte's end.
fn write_ints(values: &[i64], min: &i64, max: &i64, width: u8, out: &mut [u8])
    requires kind { IsKind (ItemKind.integers min.now max.now) }
    requires least { FitsSigned w64 min.now }
    requires fits { width ≡ width_of min.now max.now }
    requires items { AreItems (ItemKind.integers min.now max.now) (map Value.whole values.now) }
    requires room { length out.old ≡ length (field_bytes (ItemKind.integers min.now max.now) (map Value.whole values.now)) }
    ensures { out.new ≡ field_bytes (ItemKind.integers min.now max.now) (map Value.whole values.now) }
{
    clear(out);
    pack(values, *min, width, 0, out);
}

/// Writes words of 32 bits.
fn write_words(values: &[u32], out: &mut [u8])
    requires room { length out.old ≡ length (field_bytes (ItemKind.words 32) (map Value.word values.now)) }
    ensures { out.new ≡ field_bytes (ItemKind.words 32) (map Value.word values.now) }
{
    LittleEndian::write_u32_into(values, out);
}

/// Writes words of 64 bits.
fn write_long_words(values: &[u64], out: &mut [u8])
    requires room { length out.old ≡ length (field_bytes (ItemKind.words 64) (map Value.word values.now)) }
    ensures { out.new ≡ field_bytes (ItemKind.words 64) (map Value.word values.now) }
{
    LittleEndian::write_u64_into(values, out);
}
