//! Numbers in texts.

ghost use Rattle.std.specs.Prelude.{◌≡◌, ◌^◌, reverse, Some, None, if◌then◌else◌};
ghost use Rattle.std.specs.List.{list_all};
ghost use Rattle.std.specs.Char.{digit_value};
ghost use Rattle.e57_pieces.specs.Words.{is_decimal, is_space};
ghost use Rattle.e57_nodes.specs.Facts.{is_integer_text, digits_below, signed_in, trimmed, unsigned_in, without_space};
ghost use Rattle.e57_tree.specs.Numbers.{appended, positive_from, negative_from};

/// The most digits of a number.
const MAX_DIGITS: usize = 64;

/// The signed number that a text has: an optional `-` or `+`, and 1 to 64 decimal digits, perhaps between white space.
#[tactic(auto, unfolding(e57_nodes::specs::Facts::signed_in, e57_nodes::specs::Facts::signed_from))]
pub fn signed(text: &[u8]) -> Option<i64>
    ensures { result ≡ signed_in text.now }
{
    let text = trimmed(text);
    let (first, rest) = text.split_first()?;
    match *first {
        b'-' => negative(digits(rest)),
        b'+' => positive(digits(rest)),
        _ => positive(digits(text)),
    }
}

/// The unsigned number that a text has: an optional `+`, and 1 to 64 decimal digits, perhaps between white space.
#[tactic(auto, unfolding(e57_nodes::specs::Facts::unsigned_in, e57_nodes::specs::Facts::unsigned_from))]
pub fn unsigned(text: &[u8]) -> Option<u64>
    ensures { result ≡ unsigned_in text.now }
{
    let text = trimmed(text);
    let (first, rest) = text.split_first()?;
    if *first == b'+' {
        digits(rest)
    } else {
        digits(text)
    }
}

/// Whether a text is a signed number, or white space alone or nothing, which mean 0.
#[tactic(auto, unfolding(e57_nodes::specs::Facts::is_integer_text))]
pub fn is_integer(text: &[u8]) -> bool
    ensures { result ≡ is_integer_text text.now }
{
    is_all_space(text) || signed(text).is_some()
}

/// Whether each byte is white space.
fn is_all_space(text: &[u8]) -> bool
    ensures { result ≡ list_all is_space text.now }
{
    text.iter().all(|b| is_space(*b))
}

/// This number, if it is at most the greatest signed one.
#[tactic(auto, unfolding(e57_nodes::specs::Facts::when_below))]
fn positive(number: Option<u64>) -> Option<i64>
    ensures { result ≡ positive_from number }
{
    let n = number?;
    if n < 1 << 63 {
        return Some(n as i64);
    }
    None
}

/// This number below 0, if it is at least the least signed one.
#[tactic(auto, unfolding(e57_nodes::specs::Facts::when_below))]
fn negative(number: Option<u64>) -> Option<i64>
    ensures { result ≡ negative_from number }
{
    let n = number?;
    if n <= 1 << 63 {
        return Some((-i128::from(n)) as i64);
    }
    None
}

/// The number that 1 to 64 decimal digits write.
#[tactic(auto, unfolding(e57_nodes::specs::Facts::digits_below, e57_nodes::specs::Facts::when_below))]
fn digits(text: &[u8]) -> Option<u64>
    ensures { result ≡ digits_below (2 ^ 64) text.now }
{
    if text.is_empty() || text.len() > MAX_DIGITS {
        return None;
    }
    let mut number = 0;
    for b in text {
        number = appended(number, *b)?;
    }
    Some(number)
}

/// The number whose digits are those of this one and this digit.
#[tactic(auto, unfolding(e57_nodes::specs::Facts::when_below))]
fn appended(number: u64, b: u8) -> Option<u64>
    ensures { result ≡ appended number b }
{
    let digit = digit(b)?;
    number.checked_mul(10)?.checked_add(digit)
}

/// The value of a decimal digit.
#[tactic(auto, unfolding(e57_pieces::specs::Words::is_decimal))]
fn digit(b: u8) -> Option<u64>
    ensures { result ≡ (if is_decimal b then Some (digit_value b) else None) }
{
    if b.is_ascii_digit() {
        Some(u64::from(b - b'0'))
    } else {
        None
    }
}

/// The text without the white space at both ends.
#[tactic(auto, unfolding(e57_nodes::specs::Facts::trimmed))]
fn trimmed(text: &[u8]) -> &[u8]
    ensures { result.now ≡ trimmed text.now }
{
    trimmed_end(trimmed_start(text))
}

/// The text without the white space in front.
fn trimmed_start(text: &[u8]) -> &[u8]
    ensures { result.now ≡ without_space text.now }
{
    for i in 0..text.len() {
        if !is_space(text[i]) {
            return text.split_at(i).1;
        }
    }
    text.split_at(text.len()).1
}

/// The text without the white space at its end.
fn trimmed_end(text: &[u8]) -> &[u8]
    ensures { result.now ≡ reverse (without_space (reverse text.now)) }
{
    let mut end = text.len();
    while end > 0 {
        if !is_space(text[end - 1]) {
            return text.split_at(end).0;
        }
        end -= 1;
    }
    text.split_at(0).0
}

/// Whether the byte is white space.
#[tactic(auto, unfolding(e57_pieces::specs::Words::is_space))]
fn is_space(b: u8) -> bool
    ensures { result ≡ is_space b }
{
    b == b' ' || b == b'\t' || b == b'\r' || b == b'\n'
}
