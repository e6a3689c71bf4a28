//! Decimals.

/// The decimal number `whole * 10^shift`.
///
/// `read_decimal` answers, and `Linear::new` takes, those of one form: the magnitude of `whole` is at most 2^127 - 1,
/// `shift` is from -60 to 60, `whole` is no multiple of 10 unless it is 0, and 0 has the shift 0.
#[derive(Clone, Copy, Debug, PartialEq, Eq)]
pub struct Decimal {
    pub whole: i128,
    pub shift: i16,
}
