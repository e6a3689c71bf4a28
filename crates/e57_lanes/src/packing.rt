//! Integers packed as bit fields.

ghost use Rattle.std.specs.Prelude.{◌≡◌, ◌+◌, ◌*◌, ◌/◌, ◌^◌, ◌<◌, ◌≤◌, ℕ, length, pos, ◌-ℤ◌, ◌≤ℤ◌, ◌<ℤ◌, if◌then◌else◌};
ghost use Rattle.e57_bits.specs.Bits.{bit, number};
ghost use Rattle.e57_lanes.specs.Pack.{CanPack, Packed, PackedComesBack};
ghost use Rattle.e57_lanes.specs.Begun.{PutsNumber};
ghost use Rattle.e57_lanes.specs.PackSteps.{PackedBetween, value_number, joined, FitsField, SameBits};

use crate::begun::Begun;

/// Packs the values: `value - min` of each in `width` bits, the first from bit `phase` of `out` on. `phase` is below 8,
/// `width` at most 64, each value minus `min` is from 0 to below `2^width`, and the bits fit. No other bit is changed.
pub fn pack(values: &[i64], min: i64, width: u8, phase: u8, out: &mut [u8])
    requires { CanPack values.now min width phase out.old }
    ensures { Packed values.now min width phase out.old out.new }
{
    if phase != 0 {
        pack_from(values, 0, min, width, phase, out);
        return;
    }
    let blocks = values.len() / 8;
    pack_blocks(values, min, width, blocks, out);
    pack_from(values, 8 * blocks, min, width, phase, out);
}

/// Packed values come back when they are unpacked. No code: it stands for the law.
pub fn packed_comes_back()
    ensures { PackedComesBack }
{}

/// Packs the values from `from` on, bit by bit.
fn pack_from(values: &[i64], from: usize, min: i64, width: u8, phase: u8, out: &mut [u8])
    requires values { CanPack values.now min width phase out.old }
    requires from { from ≤ length values.now }
    ensures { PackedBetween values.now min width phase from (length values.now) out.old out.new }
{
    for k in from..values.len() {
        let step = width as usize;
        let place = phase as usize + k % 8 * step;
        let number = number_for(values[k], min, width);
        pack_bits(number, width, k / 8 * step + place / 8, place % 8, out);
    }
}

/// Packs the first blocks of eight values into `width` bytes each.
fn pack_blocks(values: &[i64], min: i64, width: u8, blocks: usize, out: &mut [u8])
    requires values { CanPack values.now min width 0 out.old }
    requires there { 8 * blocks ≤ length values.now }
    ensures { PackedBetween values.now min width 0 0 (8 * blocks) out.old out.new }
{
    for block in 0..blocks {
        pack_eight(values, 8 * block, min, width, block * width as usize, out);
    }
}

/// Packs eight values, from the value `first` on, into `width` bytes from byte `at` on.
fn pack_eight(values: &[i64], first: usize, min: i64, width: u8, at: usize, out: &mut [u8])
    requires there { first + 8 ≤ length values.now }
    requires width { width ≤ 64 }
    requires fit { (j : ℕ) → j < 8 → FitsField values.now min width (first + j) }
    requires room { at + width ≤ length out.old }
    ensures numbers { number out.new (8 * at) (8 * width) ≡ joined (value_number values.now min first) width 8 }
    ensures others { SameBits (8 * at) (8 * (at + width)) out.old out.new }
{
    let mut place = at;
    let mut word = 0;
    let mut held = 0;
    for j in 0..8 {
        let number = number_for(values[first + j], min, width);
        let begun = put_number(Begun { place, word, held }, number, width, out);
        place = begun.place;
        word = begun.word;
        held = begun.held;
    }
    put_bytes(word, held / 8, place, out);
}

/// Adds a number to the word, and puts the word once it is full.
#[inline(always)]
fn put_number(begun: Begun, number: u64, width: u8, out: &mut [u8]) -> Begun
    requires fits { number < 2 ^ width × width ≤ 64 }
    requires room { 8 * begun.place + begun.held + width ≤ 8 * length out.old }
    ensures { PutsNumber begun number width out.old result out.new }
{
    let Begun {
        place,
        word,
        held,
        ..
    } = begun;
    let step = width as usize;
    let filled = word | number << held;
    if held + step < 64 {
        return Begun {
            place,
            word: filled,
            held: held + step,
        };
    }
    put_bytes(filled, 8, place, out);
    Begun {
        place: place + 8,
        word: rest(number, 64 - held),
        held: held + step - 64,
    }
}

/// The number without its lowest `taken` bits.
#[inline(always)]
fn rest(number: u64, taken: usize) -> u64
    requires { 0 < taken × taken ≤ 64 }
    ensures { result ≡ number / 2 ^ taken }
{
    number >> 1 >> (taken - 1)
}

/// The number that is packed for a value.
#[inline(always)]
fn number_for(value: i64, min: i64, width: u8) -> u64
    requires width { width ≤ 64 }
    requires least { min ≤ℤ value }
    requires most { (value -ℤ min) <ℤ pos (2 ^ width) }
    ensures number { pos result ≡ value -ℤ min }
    ensures fits { result < 2 ^ width }
{
    (value as i128 - min as i128) as u64
}

/// The lowest `n` bytes, the lowest first.
#[inline(always)]
fn put_bytes(word: u64, n: usize, at: usize, out: &mut [u8])
    requires few { n ≤ 8 }
    requires fits { word < 2 ^ (8 * n) }
    requires room { at + n ≤ length out.old }
    ensures number { number out.new (8 * at) (8 * n) ≡ word }
    ensures others { SameBits (8 * at) (8 * (at + n)) out.old out.new }
{
    for i in 0..n {
        out[at + i] = (word >> (8 * i) & 0xff) as u8;
    }
}

/// The `width` bits of a number from bit `shift` of byte `at` on, bit by bit.
fn pack_bits(whole: u64, width: u8, at: usize, shift: usize, out: &mut [u8])
    requires width { width ≤ 64 }
    requires shift { shift < 8 }
    requires fits { whole < 2 ^ width }
    requires room { 8 * at + shift + width ≤ 8 * length out.old }
    ensures number { number out.new (8 * at + shift) width ≡ whole }
    ensures others { SameBits (8 * at + shift) (8 * at + shift + width) out.old out.new }
{
    for j in 0..width {
        let place = shift + j as usize;
        put_bit(whole >> j & 1 == 1, at + place / 8, place % 8, out);
    }
}

/// One bit.
fn put_bit(is_set: bool, at: usize, place: usize, out: &mut [u8])
    requires place { place < 8 }
    requires room { at < length out.old }
    ensures bit { bit out.new (8 * at + place) ≡ (if is_set then 1 else 0) }
    ensures others { SameBits (8 * at + place) (8 * at + place + 1) out.old out.new }
{
    let byte = out[at];
    if is_set {
        out[at] = byte | 1 << place;
        return;
    }
    out[at] = byte & !(1 << place);
}
