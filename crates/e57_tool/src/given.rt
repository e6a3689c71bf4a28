//! Options of a command, read one after another.

ghost use Rattle.std.specs.Prelude.{◌≡◌, IfOk, IfSome, List, MatchResult, Ok, Err, option_map};
ghost use Rattle.e57_tool.specs.Cursor.{unread};
ghost use Rattle.e57_tool.specs.Options.{OptionRow, with_option, with_options};

use crate::cursor::{Cursor, WordFault};

/// The options of a command, as far as they are given.
pub trait Given<'a>: Sized {
    /// What they give.
    ghost Meaning: { Type 0 };

    ghost meaning: { Self → Meaning };

    /// What the command takes, and what is given with no option.
    ghost rows: { List (OptionRow Meaning) };

    ghost nothing: { Meaning };

    /// What always holds of them.
    ghost is_lawful: { Self → Type 0 };

    /// No option.
    fn none() -> Self
        ensures given { meaning result ≡ nothing }
        ensures lawful { is_lawful result };

    /// These options and one more that a word writes, if it writes one that may stand here.
    fn with_option(self, word: &'a str) -> Option<Self>
        requires { is_lawful self }
        ensures given { option_map meaning result ≡ with_option rows word.now (meaning self) }
        ensures lawful { IfSome result is_lawful };
}

/// The options that the words which are left write.
pub fn read_options<'a, G: Given<'a>>(words: Cursor<'a>) -> Result<G, WordFault>
    ensures given { MatchResult result
        (λ options. with_options G.rows (unread words.entry).at (unread words.entry).words G.nothing ≡ Ok (G.meaning options))
        (λ fault. with_options G.rows (unread words.entry).at (unread words.entry).words G.nothing ≡ Err fault.at) }
    ensures lawful { IfOk result G.is_lawful }
{
    let mut given = G::none();
    for at in words.next..words.words.len() {
        let Some(more) = given.with_option(words.words[at].as_str()) else {
            return Err(WordFault { at: at as u64 });
        };
        given = more;
    }
    Ok(given)
}
