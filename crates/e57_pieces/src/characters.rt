//! The characters of a text.

ghost use Rattle.std.specs.Prelude.{◌≡◌, MatchOption, IsUtf8, length};
ghost use Rattle.std.specs.Str.Lossy.{utf8_valid_len};
ghost use Rattle.e57_pieces.specs.Characters.{clean_len, forbids, is_control, is_noncharacter};

/// How many bytes stand before the first that isn't UTF-8: none where the whole text is UTF-8.
pub fn valid_len(text: &[u8]) -> Option<usize>
    ensures { MatchOption result (IsUtf8 text.now) (λ n. ¬ (IsUtf8 text.now) × (n ≡ utf8_valid_len text.now)) }
{
    match simdutf8::compat::from_utf8(text) {
        Ok(_) => None,
        Err(error) => Some(error.valid_up_to()),
    }
}

/// Whether the text begins with the bytes of U+FFFE or U+FFFF.
#[tactic(auto, unfolding(crate::specs::Characters::is_noncharacter))]
fn begins_noncharacter(text: &[u8]) -> bool
    ensures { result ≡ is_noncharacter text.now }
{
    match text {
        [a, b, c, ..] => *a == 0xEF && *b == 0xBF && *c >= 0xBE,
        _ => false,
    }
}

/// Whether the byte is a control byte other than tab, line feed and carriage return.
#[tactic(auto, unfolding(crate::specs::Characters::is_control))]
fn is_control_byte(b: u8) -> bool
    ensures { result ≡ is_control b }
{
    b < 0x20 && !(b == b'\t' || b == b'\n' || b == b'\r')
}

/// Whether no character begins at the front of the text.
#[tactic(auto, unfolding(crate::specs::Characters::forbids))]
fn begins_forbidden(text: &[u8]) -> bool
    ensures { result ≡ forbids text.now }
{
    let [first, ..] = text else {
        return false;
    };
    is_control_byte(*first) || begins_noncharacter(text)
}

/// How many bytes stand before the first that begins no character.
pub fn characters_len(text: &[u8]) -> usize
    ensures { result ≡ clean_len text.now }
{
    for i in 0..text.len() {
        if begins_forbidden(&text[i..]) {
            return i;
        }
    }
    text.len()
}
