//! One field of a cloud that is written.

ghost use Rattle.std.specs.Prelude.{◌≡◌, ℕ, ◌+◌, ◌<◌, ◌≤◌, ◌++◌, length, map, take, drop, IfOk, MatchResult};
ghost use Rattle.e57_layout.specs.Values.{item_kind, IsValidField, ItemKind, Value};
ghost use Rattle.e57_layout.specs.Items.{AreItems, field_bytes};
ghost use Rattle.e57_chunk_out.specs.Texts.{strings_at, AreEnds};
ghost use Rattle.e57_chunk_out.specs.Waiting.{most_waiting, part, taken, cleared, later_items, with_more, kind_in, items_in, HasRoom, IsNew, IsPending, IsWaiting};

use crate::bytes::grow;
use crate::pending::{
    Pending, drop_front, new_pending, push_ints, push_long_words, push_texts, push_words,
    write_items, written_size,
};
use e57_layout::Field;
use std::alloc::{AllocError, Global};
use std::marker::Model;

/// A field of a cloud that is written: the items that wait, and the bytes of the groups that are under way to a packet.
#[derive(Drop)]
pub struct FieldOut {
    pending: Pending,
    until: usize,
    run: Vec<u8>,
    used: usize,
}

impl Model for FieldOut {
    ghost use Rattle.std.specs.Prelude.{take, length};
    ghost use Rattle.e57_chunk_out.specs.Waiting.{Waiting, IsFieldOut, kind_in, items_in, room_in};

    ghost Value = { Waiting };

    ghost view = { λ f. record { kind = kind_in f.pending; items = items_in f.pending f.until; stream = take f.used f.run.items; room = room_in f.pending (length f.run.items) } };

    ghost invariant = { λ f. IsFieldOut f.pending f.until f.run.items f.used };
}

impl FieldOut {
    /// A field with no items. Of numbers it has room for so many bytes of groups.
    pub fn open(alloc: Global, field: &Field, room: usize) -> Result<FieldOut, AllocError>
        requires valid { IsValidField field.now }
        ensures { IfOk result (λ f. IsNew (item_kind field.now.kind) room f) }
    {
        let pending = new_pending(alloc, field)?;
        let run = vec![in alloc; 0; room]?;
        Ok(FieldOut {
            pending,
            until: 0,
            run,
            used: 0,
        })
    }

    /// How many items wait.
    pub fn len(&self) -> usize
        ensures len { result ≡ length self.now.items }
        ensures state { IsWaiting self.now }
    {
        self.until
    }

    /// Appends integers to the items that wait.
    pub fn push_ints(&mut self, values: &[i64])
        requires items { AreItems self.old.kind (map Value.whole values.now) }
        requires few { length self.old.items + length values.now ≤ most_waiting }
        ensures { self.new ≡ with_more (map Value.whole values.now) self.old }
    {
        push_ints(&mut self.pending, self.until, values);
        self.until += values.len();
    }

    /// Appends words of 32 bits to the items that wait.
    pub fn push_words(&mut self, values: &[u32])
        requires kind { self.old.kind ≡ ItemKind.words 32 }
        requires few { length self.old.items + length values.now ≤ most_waiting }
        ensures { self.new ≡ with_more (map Value.word values.now) self.old }
    {
        push_words(&mut self.pending, self.until, values);
        self.until += values.len();
    }

    /// Appends words of 64 bits to the items that wait.
    pub fn push_long_words(&mut self, values: &[u64])
        requires kind { self.old.kind ≡ ItemKind.words 64 }
        requires few { length self.old.items + length values.now ≤ most_waiting }
        ensures { self.new ≡ with_more (map Value.word values.now) self.old }
    {
        push_long_words(&mut self.pending, self.until, values);
        self.until += values.len();
    }

    /// Appends strings, which end here in the bytes, one behind another, the first beginning at `begin`. Where memory is
    /// refused, what waits stays.
    pub fn push_texts(&mut self, bytes: &[u8], begin: usize, ends: &[u64]) -> Result<(), AllocError>
        requires ends { AreEnds (length bytes.now) begin ends.now }
        requires kind { self.old.kind ≡ ItemKind.strings }
        requires few { length self.old.items + length ends.now ≤ most_waiting }
        ensures { MatchResult result
            (λ _. self.new ≡ with_more (strings_at bytes.now begin ends.now) self.old)
            (λ _. self.new ≡ self.old) }
    {
        push_texts(&mut self.pending, self.until, bytes, begin, ends)?;
        self.until += ends.len();
        Ok(())
    }

    /// Lets go of the first `n` items that wait.
    pub fn drop_front(&mut self, n: usize)
        requires { n ≤ length self.old.items }
        ensures { self.new ≡ later_items n self.old }
    {
        drop_front(&mut self.pending, n, self.until);
        self.until -= n;
    }

    /// How many bytes `n` items have, from `from` on.
    pub fn size(&self, from: usize, n: usize) -> usize
        requires there { from + n ≤ length self.now.items }
        ensures { result ≡ length (field_bytes self.now.kind (part from n self.now.items)) }
    {
        written_size(&self.pending, from, n, self.until)
    }

    /// How many bytes the stream has with `n` items more, from `from` on.
    pub fn size_with(&self, from: usize, n: usize) -> usize
        requires { from + n ≤ length self.now.items }
        ensures { result ≡ length (taken from n self.now).stream }
    {
        self.used + written_size(&self.pending, from, n, self.until)
    }

    /// Writes `n` items, from `from` on, behind the stream. Memory is wanted for strings alone.
    pub fn take(&mut self, from: usize, n: usize) -> Result<(), AllocError>
        requires there { from + n ≤ length self.old.items }
        requires room { HasRoom self.old (length (field_bytes self.old.kind (part from n self.old.items))) }
        ensures { MatchResult result (λ _. self.new ≡ taken from n self.old) (λ _. self.old.kind ≡ ItemKind.strings) }
    {
        let size = written_size(&self.pending, from, n, self.until);
        grow(&mut self.run, self.used + size)?;
        append(&self.pending, from, n, self.until, self.used, &mut self.run);
        self.used += size;
        Ok(())
    }

    /// The bytes of the groups that are under way.
    pub fn stream(&self) -> &[u8]
        ensures { result.now ≡ self.now.stream }
    {
        &self.run[..self.used]
    }

    /// Empties the stream.
    pub fn clear(&mut self)
        ensures { self.new ≡ cleared self.old }
    {
        self.used = 0;
    }
}

/// Writes `n` of `until` items, from `from` on, behind the first `used` bytes of a run, which stay.
fn append(pending: &Pending, from: usize, n: usize, until: usize, used: usize, run: &mut [u8])
    requires items { IsPending pending.now until }
    requires there { from + n ≤ until }
    requires room { used + length (field_bytes (kind_in pending.now) (part from n (items_in pending.now until))) ≤ length run.old }
    ensures { let bytes = field_bytes (kind_in pending.now) (part from n (items_in pending.now until)) in
        take (used + length bytes) run.new ≡ take used run.old ++ bytes }
{
    let end = used + written_size(pending, from, n, until);
    write_items(pending, from, n, until, &mut run[used..end]);
}
