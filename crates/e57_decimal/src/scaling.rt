//! A raw number times a scale plus an offset.

ghost use Rattle.std.specs.Prelude.{◌≡◌, nat_le, ◌≤◌, ◌+◌, ◌*◌, ◌^◌, pos, neg_ℤ, ◌+ℤ◌, ◌*ℤ◌, ◌≤ℤ◌, unsigned_abs, IfSome};
ghost use Rattle.e57_decimal.specs.Fractions.{IsDecimal, limit, shift_limit};
ghost use Rattle.e57_decimal.specs.Reading.{HasValue};
ghost use Rattle.e57_decimal.specs.Scaling.{Within, common_up as common_up_of, linear_of, reach, value_of, line_with, whole_at as whole_at_up};
ghost use Rattle.e57_decimal.specs.Writing.{decimal_text};

use crate::powers::{LIMIT, SHIFT_LIMIT, power_of_ten, signed};
use crate::values::Decimal;
use crate::writing::{Text, write_number};
use arrayvec::ArrayString;
use std::marker::Model;

/// `raw * scale + offset` for the raw numbers within limits (ASTM E2807, ScaledInteger), within 128 bits.
#[derive(Drop)]
pub struct Linear {
    scale: Decimal,
    offset: Decimal,
    factor: i128,
    summand: i128,
    up: u32,
    min: i64,
    max: i64,
}

impl Model for Linear {
    ghost use Rattle.e57_decimal.specs.Scaling.{Line};

    ghost Value = { Line };

    ghost use Rattle.e57_decimal.specs.Holding.{line_of, IsLinear};

    ghost view = { line_of };

    ghost invariant = { IsLinear };
}

/// A shift, counted from -60.
fn up_of(shift: i16) -> u32
    requires low { neg_ℤ (pos shift_limit) ≤ℤ shift }
    requires high { shift ≤ℤ pos shift_limit }
    ensures { result ≡ unsigned_abs (shift +ℤ pos shift_limit) }
{
    (i32::from(shift) + SHIFT_LIMIT as i32) as u32
}

/// The least shift of those of the two that aren't 0, or 0 if both are: counted from -60.
#[tactic(auto, unfolding(crate::specs::Scaling::common_up))]
fn common_up(scale: Decimal, offset: Decimal) -> u32
    requires scale { IsDecimal scale }
    requires offset { IsDecimal offset }
    ensures up { result ≡ common_up_of scale offset }
    ensures high { result ≤ 2 * shift_limit }
{
    if scale.whole == 0 && offset.whole == 0 {
        return SHIFT_LIMIT;
    }
    if scale.whole == 0 {
        return up_of(offset.shift);
    }
    if offset.whole == 0 {
        return up_of(scale.shift);
    }
    up_of(scale.shift).min(up_of(offset.shift))
}

/// `whole * 10^k`, if its magnitude is at most 2^127 - 1.
fn raised(whole: i128, k: u32) -> Option<i128>
    ensures { Within (whole *ℤ pos (10 ^ k)) result }
{
    if whole == 0 {
        return Some(0);
    }
    let power = power_of_ten(u128::from(k))?;
    let magnitude = whole.unsigned_abs().checked_mul(power)?;
    if magnitude > LIMIT {
        return None;
    }
    Some(signed(whole < 0, magnitude))
}

/// The whole number w with `decimal = w * 10^(up - 60)`, if its magnitude is at most 2^127 - 1.
#[tactic(auto, unfolding(crate::specs::Scaling::whole_at))]
fn whole_at(decimal: Decimal, up: u32) -> Option<i128>
    requires { IsDecimal decimal }
    ensures { Within (whole_at_up up decimal) result }
{
    raised(decimal.whole, up_of(decimal.shift).saturating_sub(up))
}

/// The greater magnitude of the limits.
fn reach_of(min: i64, max: i64) -> u64
    ensures { result ≡ reach min max }
{
    min.unsigned_abs().max(max.unsigned_abs())
}

/// Whether no `raw * factor + summand` is too large.
fn is_within(reach: u64, factor: i128, summand: i128) -> bool
    ensures { result ≡ nat_le (reach * unsigned_abs factor + unsigned_abs summand) limit }
{
    let Some(product) = u128::from(reach).checked_mul(factor.unsigned_abs()) else {
        return false;
    };
    let Some(most) = product.checked_add(summand.unsigned_abs()) else {
        return false;
    };
    most <= LIMIT
}

/// `raw * factor + summand`.
fn value_at(raw: i64, factor: i128, summand: i128) -> i128
    requires { unsigned_abs raw * unsigned_abs factor + unsigned_abs summand ≤ limit }
    ensures value { result ≡ raw *ℤ factor +ℤ summand }
    ensures within { unsigned_abs result ≤ limit }
{
    i128::from(raw) * factor + summand
}

impl Linear {
    /// The line of a scale and an offset over the raw numbers from `min` to `max`.
    ///
    /// Let s be the least shift of those of the two that aren't 0, or 0 if both are; A and B the whole numbers with
    /// `scale = A * 10^s` and `offset = B * 10^s`; M the greater magnitude of `min` and `max`. None if the magnitude
    /// of A or of B, or `M * |A| + |B|`, is above 2^127 - 1.
    pub fn new(scale: Decimal, offset: Decimal, min: i64, max: i64) -> Option<Linear>
        requires scale { IsDecimal scale }
        requires offset { IsDecimal offset }
        requires limits { min ≤ℤ max }
        ensures linear { result ≡ linear_of scale offset min max }
        ensures line { IfSome result (λ line. line ≡ line_with scale offset min max) }
    {
        let up = common_up(scale, offset);
        let factor = whole_at(scale, up)?;
        let summand = whole_at(offset, up)?;
        if !is_within(reach_of(min, max), factor, summand) {
            return None;
        }
        Some(Linear {
            scale,
            offset,
            factor,
            summand,
            up,
            min,
            max,
        })
    }

    /// Writes the text of `raw * scale + offset`, for a raw number within the limits, in place of what was there: a `-` if it is
    /// below 0, the digits before the point without a leading zero but at least one, and, if it isn't whole, a point and the
    /// digits behind it, the last not 0. At most 101 bytes.
    pub fn write(&self, raw: i64, text: &mut Text)
        requires low { self.now.low ≤ℤ raw }
        requires high { raw ≤ℤ self.now.high }
        ensures text { text.new.bytes ≡ decimal_text (value_of self.now raw) }
        ensures value { HasValue text.new.bytes (value_of self.now raw) }
    {
        write_number(text, value_at(raw, self.factor, self.summand), self.up);
    }

    /// The same text by itself.
    pub fn text(&self, raw: i64) -> ArrayString<112>
        requires low { self.now.low ≤ℤ raw }
        requires high { raw ≤ℤ self.now.high }
        ensures text { result.bytes ≡ decimal_text (value_of self.now raw) }
        ensures value { HasValue result.bytes (value_of self.now raw) }
    {
        let mut text = Text::new();
        self.write(raw, &mut text);
        text
    }
}
