//! The options of `filter`.

ghost use Rattle.std.specs.Prelude.{◌≡◌, ◌<◌, IfSome, None, Some, option_map};
ghost use Rattle.e57_filter.specs.Asks.{filter_asked, keep_asked, IsLimitedFilter};
ghost use Rattle.e57_tool.specs.Options.{given_once, names_asked, number_asked};
ghost use Rattle.e57_tool.specs.FilterOptions.{AreLimitedToFilter, FilterGiven, cut_last, every_asked, filter_given, filter_rows, given_to_filter, keep_of, negative_of, no_filter_given, positive_of, signed_of, with_keep};

use crate::cursor::number_of;
use crate::given::Given;
use crate::options::{names_asked, number_asked, value_behind};
use arrayvec::ArrayVec;
use e57_filter::{FilterAsk, Keep};

/// The options of `filter`.
#[derive(Drop)]
pub struct FilterOptions<'a> {
    /// The paths of the kept fields, separated by commas.
    pub fields: Option<&'a str>,
    /// Limits of fields.
    pub keeps: ArrayVec<Keep<'a>, 8>,
    /// Each one of so many records.
    pub every: Option<u64>,
    /// The number of the first record.
    pub from: Option<u64>,
    /// From how many records.
    pub count: Option<u64>,
}

impl<'a> FilterOptions<'a> {
    /// What they ask of a cloud: all its fields and records, where they don't say otherwise.
    pub fn of_cloud(self, cloud: u64) -> FilterAsk<'a>
        requires { AreLimitedToFilter self }
        ensures asked { filter_asked result ≡ filter_given cloud (given_to_filter self.entry) }
        ensures limits { IsLimitedFilter result }
    {
        FilterAsk {
            cloud,
            fields: self.fields,
            keeps: self.keeps,
            every: self.every.unwrap_or(1),
            from: self.from.unwrap_or(0),
            count: self.count,
        }
    }
}

/// The magnitude of the least number with a sign.
const MOST_BELOW_ZERO: u64 = 1 << 63;

// The number of these digits, without a sign.
fn positive_of(digits: &str) -> Option<i64>
    ensures { result ≡ positive_of digits.now }
{
    let n = number_of(digits)?;
    if n >= MOST_BELOW_ZERO {
        return None;
    }
    Some(n as i64)
}

// The number of these digits behind a minus.
fn negative_of(digits: &str) -> Option<i64>
    ensures { result ≡ negative_of digits.now }
{
    let n = number_of(digits)?;
    if n > MOST_BELOW_ZERO {
        return None;
    }
    Some((0 - n as i128) as i64)
}

// The number that a word of decimal digits writes, with a minus before them or none.
#[tactic(auto, unfolding(crate::specs::FilterOptions::signed_of))]
fn signed_of(word: &str) -> Option<i64>
    ensures { result ≡ signed_of word.now }
{
    if let Some(digits) = value_behind("-", word) {
        return negative_of(digits);
    }
    positive_of(word)
}

// What stands before the last colon, and what behind it.
fn cut_last(text: &str) -> Option<(&str, &str)>
    ensures { option_map (λ x. (x.0.now, x.1.now)) result ≡ cut_last text.now }
{
    text.rsplit_once(':')
}

// Limits of a field, `FIELD:LOW:HIGH`.
#[tactic(auto, unfolding(crate::specs::FilterOptions::keep_of))]
fn keep_of(value: &str) -> Option<Keep<'_>>
    ensures { option_map keep_asked result ≡ keep_of value.now }
{
    let (front, high) = cut_last(value)?;
    let (field, low) = cut_last(front)?;
    match (signed_of(low), signed_of(high)) {
        (Some(low), Some(high)) if !field.is_empty() => Some(Keep { field, low, high }),
        _ => None,
    }
}

// Each one of how many records.
fn every_asked(value: &str) -> Option<u64>
    ensures value { result ≡ every_asked value.now }
    ensures limit { IfSome result (λ n. 0 < n) }
{
    let n = number_of(value)?;
    if n == 0 {
        return None;
    }
    Some(n)
}

// These options, and the names of fields, if none stand and these may.
fn with_fields<'a>(given: FilterOptions<'a>, value: &'a str) -> Option<FilterOptions<'a>>
    requires { AreLimitedToFilter given }
    ensures given { option_map given_to_filter result ≡ given_once (given_to_filter given.entry).names (names_asked value.now) (λ names. record (given_to_filter given.entry) { names = Some names }) }
    ensures limits { IfSome result AreLimitedToFilter }
{
    match (given.fields, names_asked(value)) {
        (None, Some(list)) => Some(FilterOptions {
            fields: Some(list),
            ..given
        }),
        _ => None,
    }
}

// These options, and limits of one more field, if fewer than 8 stand and these may.
fn with_keep<'a>(mut given: FilterOptions<'a>, value: &'a str) -> Option<FilterOptions<'a>>
    requires { AreLimitedToFilter given }
    ensures given { option_map given_to_filter result ≡ with_keep (given_to_filter given.entry) (keep_of value.now) }
    ensures limits { IfSome result AreLimitedToFilter }
{
    let keep = keep_of(value)?;
    if given.keeps.is_full() {
        return None;
    }
    given.keeps.push(keep);
    Some(given)
}

// These options, and each one of how many records, if no number stands and this may.
fn with_every<'a>(given: FilterOptions<'a>, value: &'a str) -> Option<FilterOptions<'a>>
    requires { AreLimitedToFilter given }
    ensures given { option_map given_to_filter result ≡ given_once (given_to_filter given.entry).every (every_asked value.now) (λ n. record (given_to_filter given.entry) { every = Some n }) }
    ensures limits { IfSome result AreLimitedToFilter }
{
    match (given.every, every_asked(value)) {
        (None, Some(n)) => Some(FilterOptions {
            every: Some(n),
            ..given
        }),
        _ => None,
    }
}

// These options, and the number of the first record, if none stands and this may.
fn with_from<'a>(given: FilterOptions<'a>, value: &'a str) -> Option<FilterOptions<'a>>
    requires { AreLimitedToFilter given }
    ensures given { option_map given_to_filter result ≡ given_once (given_to_filter given.entry).from (number_asked value.now) (λ n. record (given_to_filter given.entry) { from = Some n }) }
    ensures limits { IfSome result AreLimitedToFilter }
{
    match (given.from, number_asked(value)) {
        (None, Some(n)) => Some(FilterOptions {
            from: Some(n),
            ..given
        }),
        _ => None,
    }
}

// These options, and from how many records, if no number stands and this may.
fn with_count<'a>(given: FilterOptions<'a>, value: &'a str) -> Option<FilterOptions<'a>>
    requires { AreLimitedToFilter given }
    ensures given { option_map given_to_filter result ≡ given_once (given_to_filter given.entry).count (number_asked value.now) (λ n. record (given_to_filter given.entry) { count = Some n }) }
    ensures limits { IfSome result AreLimitedToFilter }
{
    match (given.count, number_asked(value)) {
        (None, Some(n)) => Some(FilterOptions {
            count: Some(n),
            ..given
        }),
        _ => None,
    }
}

impl<'a> Given<'a> for FilterOptions<'a> {
    ghost Meaning = { FilterGiven };

    ghost meaning = { λ options. given_to_filter options };

    ghost rows = { filter_rows };

    ghost nothing = { no_filter_given };

    ghost is_lawful = { λ options. AreLimitedToFilter options };

    fn none() -> FilterOptions<'a> {
        FilterOptions {
            fields: None,
            keeps: ArrayVec::new(),
            every: None,
            from: None,
            count: None,
        }
    }

    #[tactic(auto, unfolding(crate::specs::Options::with_option))]
    fn with_option(self, word: &'a str) -> Option<FilterOptions<'a>> {
        if let Some(value) = value_behind("--fields=", word) {
            return with_fields(self, value);
        }
        if let Some(value) = value_behind("--keep=", word) {
            return with_keep(self, value);
        }
        if let Some(value) = value_behind("--every=", word) {
            return with_every(self, value);
        }
        if let Some(value) = value_behind("--from=", word) {
            return with_from(self, value);
        }
        if let Some(value) = value_behind("--count=", word) {
            return with_count(self, value);
        }
        None
    }
}
