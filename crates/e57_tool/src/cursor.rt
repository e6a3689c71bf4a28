//! The words of a command line, read one after another.

ghost use Rattle.std.specs.Prelude.{◌≡◌, ◌≤◌, Some, None, Ok, Err, IfOk, MatchResult};
ghost use Rattle.std.specs.List.{list_all};
ghost use Rattle.e57_tool.specs.Cursor.{unread, is_digit, is_place, next_place, number_of, next_number, next_number_up_to, next_other, left_over};

/// The words ask for nothing.
#[derive(Clone, Copy, Debug, PartialEq, Eq)]
pub struct WordFault {
    /// The number of the first word at fault, counted from 0; where a place is missing, the number of words.
    pub at: u64,
}

/// Reads the words one after another.
#[derive(Clone, Copy)]
pub struct Cursor<'a> {
    /// All words.
    pub words: &'a [String],
    /// The number of the next one.
    pub next: usize,
}

impl<'a> Cursor<'a> {
    /// Reads the words behind the command.
    pub fn behind_command(words: &'a [String]) -> Cursor<'a>
        ensures words { result.words.now ≡ words.now }
        ensures next { result.next ≡ 1 }
    {
        Cursor { words, next: 1 }
    }

    /// The next word, which has to be there and not to begin with `--`.
    pub fn place(&mut self) -> Result<&'a str, WordFault>
        ensures words { self.new.words.now ≡ self.old.words.now }
        ensures place { MatchResult result
            (λ word. next_place (unread self.old) ≡ Ok (word.now, unread self.new))
            (λ fault. next_place (unread self.old) ≡ Err fault.at) }
    {
        let fault = WordFault {
            at: self.next as u64,
        };
        let Some(word) = self.words.get(self.next) else {
            return Err(fault);
        };
        let word = word.as_str();
        if !is_place(word) {
            return Err(fault);
        }
        self.next += 1;
        Ok(word)
    }

    /// The next word, which has to be there, not to begin with `--`, and to be another than this name.
    pub fn other_place(&mut self, name: &str) -> Result<&'a str, WordFault>
        ensures words { self.new.words.now ≡ self.old.words.now }
        ensures place { MatchResult result
            (λ word. next_other name.now (unread self.old) ≡ Ok (word.now, unread self.new))
            (λ fault. next_other name.now (unread self.old) ≡ Err fault.at) }
    {
        let fault = WordFault {
            at: self.next as u64,
        };
        let word = self.place()?;
        if word == name {
            return Err(fault);
        }
        Ok(word)
    }

    /// The next word, which has to be there and to be a number: 1 to 20 decimal digits with a value below 2^64.
    pub fn number(&mut self) -> Result<u64, WordFault>
        ensures words { self.new.words.now ≡ self.old.words.now }
        ensures number { MatchResult result
            (λ n. next_number (unread self.old) ≡ Ok (n, unread self.new))
            (λ fault. next_number (unread self.old) ≡ Err fault.at) }
    {
        let fault = WordFault {
            at: self.next as u64,
        };
        let word = self.place()?;
        let Some(n) = number_of(word) else {
            return Err(fault);
        };
        Ok(n)
    }

    /// The next word, which has to be there and to be such a number, at most this one.
    pub fn number_up_to(&mut self, most: u64) -> Result<u64, WordFault>
        ensures words { self.new.words.now ≡ self.old.words.now }
        ensures number { MatchResult result
            (λ n. next_number_up_to most (unread self.old) ≡ Ok (n, unread self.new))
            (λ fault. next_number_up_to most (unread self.old) ≡ Err fault.at) }
        ensures limit { IfOk result (λ n. n ≤ most) }
    {
        let fault = WordFault {
            at: self.next as u64,
        };
        let n = self.number()?;
        if n > most {
            return Err(fault);
        }
        Ok(n)
    }

    /// No word is left.
    pub fn end(&self) -> Result<(), WordFault>
        ensures { MatchResult result
            (λ _. left_over (unread self.now) ≡ None)
            (λ fault. left_over (unread self.now) ≡ Some fault.at) }
    {
        if self.next < self.words.len() {
            return Err(WordFault {
                at: self.next as u64,
            });
        }
        Ok(())
    }
}

/// The most digits of a number.
const MOST_DIGITS: usize = 20;

/// The number that a word of decimal digits writes.
#[tactic(auto, unfolding(crate::specs::Cursor::number_of))]
pub fn number_of(word: &str) -> Option<u64>
    ensures { result ≡ number_of word.now }
{
    if word.len() > MOST_DIGITS || !are_digits(word.as_bytes()) {
        return None;
    }
    match word.parse::<u64>() {
        Ok(n) => Some(n),
        Err(_) => None,
    }
}

// Whether each byte is a decimal digit.
fn are_digits(bytes: &[u8]) -> bool
    ensures { result ≡ list_all is_digit bytes.now }
{
    bytes.iter().all(|b| is_digit(*b))
}

fn is_digit(byte: u8) -> bool
    ensures { result ≡ is_digit byte }
{
    byte.is_ascii_digit()
}

// Whether the word may stand in a place.
fn is_place(word: &str) -> bool
    ensures { result ≡ is_place word.now }
{
    !word.starts_with("--")
}
