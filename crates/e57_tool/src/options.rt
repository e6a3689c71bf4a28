//! The options of `extract`, and values that options of other commands have too.

ghost use Rattle.std.specs.Prelude.{◌≡◌, ◌+◌, ◌<◌, ◌≤◌, length, map, option_map, None, Some, IfSome};
ghost use Rattle.std.specs.List.{list_any};
ghost use Rattle.std.specs.Str.{bytes_eq};
ghost use Rattle.e57_select.specs.Asking.{names_in, most_asked};
ghost use Rattle.e57_show.specs.Extract.{IsLimited, asked_by};
ghost use Rattle.e57_tool.specs.Options.{AreLimited, RowsGiven, are_distinct, decimal_asked, given_by, is_new, names_asked, nothing_given, number_asked, rows_asked, rows_options, value_behind, given_once};

use crate::cursor::number_of;
use crate::given::Given;
use e57_show::RowsAsk;

/// The options of `extract`.
#[derive(Clone, Copy)]
pub struct RowsOptions<'a> {
    /// The paths of fields, separated by commas.
    pub fields: Option<&'a str>,
    /// The number of the first record.
    pub from: Option<u64>,
    /// How many records.
    pub count: Option<u64>,
    /// Whether scaled integers are put as the numbers that they stand for.
    pub decimal: Option<bool>,
}

impl<'a> RowsOptions<'a> {
    /// What they ask of a cloud: all its fields and records, where they don't say otherwise.
    pub fn of_cloud(&self, cloud: u64) -> RowsAsk<'a>
        requires { AreLimited self.now }
        ensures asked { asked_by result ≡ rows_asked cloud (given_by self.now) }
        ensures limits { IsLimited result }
    {
        RowsAsk {
            cloud,
            fields: self.fields,
            from: self.from.unwrap_or(0),
            count: self.count,
            decimal: self.decimal.unwrap_or(false),
        }
    }
}

/// The most names of a list: as many as a cloud has fields.
const MOST_NAMES: usize = 512;

/// The most records, and the greatest number of one.
const MOST_RECORDS: u64 = 1 << 40;

// The value that a word has behind this front, if it begins so.
pub fn value_behind<'a>(front: &str, word: &'a str) -> Option<&'a str>
    ensures { option_map (λ value. value.now) result ≡ value_behind front.now word.now }
{
    word.strip_prefix(front)
}

// The number of a record, or a number of records.
pub fn number_asked(value: &str) -> Option<u64>
    ensures value { result ≡ number_asked value.now }
    ensures limit { IfSome result (λ n. n ≤ most_asked) }
{
    let n = number_of(value)?;
    if n > MOST_RECORDS {
        return None;
    }
    Some(n)
}

// Whether one of the names of the list is this one.
fn has_name(list: &str, name: &str) -> bool
    ensures { result ≡ list_any (λ other. bytes_eq other name.now) (names_in list.now) }
{
    list.split(',').any(|other| other == name)
}

// Whether the name is not empty, and none of the others is the same.
fn is_new(name: &str, others: &str) -> bool
    ensures { result ≡ is_new name.now (names_in others.now) }
{
    !name.is_empty() && !has_name(others, name)
}

// Whether no name of the list is empty, and all differ.
fn are_distinct(list: &str) -> bool
    ensures { result ≡ are_distinct (names_in list.now) }
{
    let mut left = list;
    'names: while let Some((name, others)) = left.split_once(',') {
        if !is_new(name, others) {
            return false;
        }
        left = others;
    }
    !left.is_empty()
}

// How many names the list has.
fn name_count(list: &str) -> usize
    ensures { result ≡ length (names_in list.now) }
{
    list.split(',').count()
}

// The list, if it has 1 to 512 names, all different and none empty.
#[tactic(auto, unfolding(crate::specs::Options::names_asked))]
pub fn names_asked(value: &str) -> Option<&str>
    ensures { option_map (λ list. names_in list.now) result ≡ names_asked value.now }
{
    if name_count(value) > MOST_NAMES || !are_distinct(value) {
        return None;
    }
    Some(value)
}

// These options, and the names of fields, if none stand and these may.
fn with_fields<'a>(given: RowsOptions<'a>, value: &'a str) -> Option<RowsOptions<'a>>
    requires { AreLimited given }
    ensures given { option_map given_by result ≡ given_once (given_by given.entry).names (names_asked value.now) (λ names. record (given_by given.entry) { names = Some names }) }
    ensures limits { IfSome result AreLimited }
{
    match (given.fields, names_asked(value)) {
        (None, Some(list)) => Some(RowsOptions {
            fields: Some(list),
            from: given.from,
            count: given.count,
            decimal: given.decimal,
        }),
        _ => None,
    }
}

// These options, and the number of the first record, if none stands and this may.
fn with_from<'a>(given: RowsOptions<'a>, value: &'a str) -> Option<RowsOptions<'a>>
    requires { AreLimited given }
    ensures given { option_map given_by result ≡ given_once (given_by given.entry).from (number_asked value.now) (λ n. record (given_by given.entry) { from = Some n }) }
    ensures limits { IfSome result AreLimited }
{
    match (given.from, number_asked(value)) {
        (None, Some(n)) => Some(RowsOptions {
            fields: given.fields,
            from: Some(n),
            count: given.count,
            decimal: given.decimal,
        }),
        _ => None,
    }
}

// These options, and how many records, if no number stands and this may.
fn with_count<'a>(given: RowsOptions<'a>, value: &'a str) -> Option<RowsOptions<'a>>
    requires { AreLimited given }
    ensures given { option_map given_by result ≡ given_once (given_by given.entry).count (number_asked value.now) (λ n. record (given_by given.entry) { count = Some n }) }
    ensures limits { IfSome result AreLimited }
{
    match (given.count, number_asked(value)) {
        (None, Some(n)) => Some(RowsOptions {
            fields: given.fields,
            from: given.from,
            count: Some(n),
            decimal: given.decimal,
        }),
        _ => None,
    }
}

// Whether scaled integers are put as the numbers that they stand for: `yes` is the one value.
fn decimal_asked(value: &str) -> Option<bool>
    ensures { result ≡ decimal_asked value.now }
{
    if value == "yes" { Some(true) } else { None }
}

// These options, and that scaled integers are put as numbers, if that doesn't stand and the value is `yes`.
fn with_decimal<'a>(given: RowsOptions<'a>, value: &'a str) -> Option<RowsOptions<'a>>
    requires { AreLimited given }
    ensures given { option_map given_by result ≡ given_once (given_by given.entry).decimal (decimal_asked value.now) (λ b. record (given_by given.entry) { decimal = Some b }) }
    ensures limits { IfSome result AreLimited }
{
    match (given.decimal, decimal_asked(value)) {
        (None, Some(decimal)) => Some(RowsOptions {
            fields: given.fields,
            from: given.from,
            count: given.count,
            decimal: Some(decimal),
        }),
        _ => None,
    }
}

impl<'a> Given<'a> for RowsOptions<'a> {
    ghost Meaning = { RowsGiven };

    ghost meaning = { λ options. given_by options };

    ghost rows = { rows_options };

    ghost nothing = { nothing_given };

    ghost is_lawful = { λ options. AreLimited options };

    fn none() -> RowsOptions<'a> {
        RowsOptions {
            fields: None,
            from: None,
            count: None,
            decimal: None,
        }
    }

    #[tactic(auto, unfolding(crate::specs::Options::with_option))]
    fn with_option(self, word: &'a str) -> Option<RowsOptions<'a>> {
        if let Some(value) = value_behind("--fields=", word) {
            return with_fields(self, value);
        }
        if let Some(value) = value_behind("--from=", word) {
            return with_from(self, value);
        }
        if let Some(value) = value_behind("--count=", word) {
            return with_count(self, value);
        }
        if let Some(value) = value_behind("--decimal=", word) {
            return with_decimal(self, value);
        }
        None
    }
}
