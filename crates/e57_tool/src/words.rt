//! What the words of a command line ask for.

ghost use Rattle.std.specs.Prelude.{◌≡◌, Ok, Err, map, string_bytes, IfOk, MatchResult};
ghost use Rattle.e57_tool.specs.Cursor.{unread, at_end};
ghost use Rattle.e57_tool.specs.Words.{IsLimitedAsk, ask_of, blob_ask, command_ask, command_of, extract_ask, filter_ask, only_place, repack_ask, trial_ask};

use crate::cursor::{Cursor, WordFault};
use crate::filter_options::FilterOptions;
use crate::given::read_options;
use crate::options::RowsOptions;
use crate::repack_options::RepackOptions;
use e57_filter::FilterAsk;
use e57_show::RowsAsk;

/// What the words ask for: a command with its places and options.
#[derive(Clone, Debug, PartialEq, Eq, Drop)]
pub enum Ask<'a> {
    /// `--help`, `-h`
    Help,
    /// `--version`
    Version,
    /// `pages FILE`
    Pages(&'a str),
    /// `info FILE`
    Info(&'a str),
    /// `list FILE`
    List(&'a str),
    /// `check FILE`
    Check(&'a str),
    /// `blob FILE K`
    Blob(&'a str, u64),
    /// `extract FILE CLOUD`, and options
    Extract(&'a str, RowsAsk<'a>),
    /// `repack IN OUT`, how many records a chunk has, and whether limits become narrow
    Repack(&'a str, &'a str, u32, bool),
    /// `filter IN OUT CLOUD`, and options
    Filter(&'a str, &'a str, FilterAsk<'a>),
    /// `trial START COUNT`
    Trial(u64, u64),
}

// The one place behind a command, a file's name, and no word behind it.
fn only_place(mut words: Cursor<'_>) -> Result<&str, WordFault>
    ensures { MatchResult result
        (λ file. only_place (unread words.entry) ≡ Ok file.now)
        (λ fault. only_place (unread words.entry) ≡ Err fault.at) }
{
    let file = words.place()?;
    words.end()?;
    Ok(file)
}

// A command that has no place, and no word behind it.
fn no_place<'a>(ask: Ask<'a>, words: Cursor<'a>) -> Result<Ask<'a>, WordFault>
    ensures { MatchResult result
        (λ given. at_end (command_of ask.entry) (unread words.entry) ≡ Ok (command_of given))
        (λ fault. at_end (command_of ask.entry) (unread words.entry) ≡ Err fault.at) }
{
    words.end()?;
    Ok(ask)
}

// A file's name and the number of a blob, and no word behind them.
fn read_blob(mut words: Cursor<'_>) -> Result<Ask<'_>, WordFault>
    ensures { MatchResult result
        (λ ask. blob_ask (unread words.entry) ≡ Ok (command_of ask))
        (λ fault. blob_ask (unread words.entry) ≡ Err fault.at) }
{
    let file = words.place()?;
    let k = words.number()?;
    words.end()?;
    Ok(Ask::Blob(file, k))
}

// A file's name, the number of a cloud, and options.
fn read_extract(mut words: Cursor<'_>) -> Result<Ask<'_>, WordFault>
    ensures ask { MatchResult result
        (λ ask. extract_ask (unread words.entry) ≡ Ok (command_of ask))
        (λ fault. extract_ask (unread words.entry) ≡ Err fault.at) }
    ensures limits { IfOk result IsLimitedAsk }
{
    let file = words.place()?;
    let cloud = words.number()?;
    let options: RowsOptions<'_> = read_options(words)?;
    Ok(Ask::Extract(file, options.of_cloud(cloud)))
}

// A file's name, the name of a new file, and options.
fn read_repack(mut words: Cursor<'_>) -> Result<Ask<'_>, WordFault>
    ensures ask { MatchResult result
        (λ ask. repack_ask (unread words.entry) ≡ Ok (command_of ask))
        (λ fault. repack_ask (unread words.entry) ≡ Err fault.at) }
    ensures limits { IfOk result IsLimitedAsk }
{
    let file = words.place()?;
    let made = words.other_place(file)?;
    let options: RepackOptions = read_options(words)?;
    Ok(Ask::Repack(file, made, options.chunk_length(), options.is_tight()))
}

// A file's name, the name of a new file, the number of a cloud, and options.
fn read_filter(mut words: Cursor<'_>) -> Result<Ask<'_>, WordFault>
    ensures ask { MatchResult result
        (λ ask. filter_ask (unread words.entry) ≡ Ok (command_of ask))
        (λ fault. filter_ask (unread words.entry) ≡ Err fault.at) }
    ensures limits { IfOk result IsLimitedAsk }
{
    let file = words.place()?;
    let made = words.other_place(file)?;
    let cloud = words.number()?;
    let options: FilterOptions<'_> = read_options(words)?;
    Ok(Ask::Filter(file, made, options.of_cloud(cloud)))
}

/// The most records of a file that is made of two numbers.
const MOST_RECORDS: u64 = 1 << 24;

// Two numbers, of which the second is a number of records, and no word behind them.
fn read_trial(mut words: Cursor<'_>) -> Result<Ask<'_>, WordFault>
    ensures ask { MatchResult result
        (λ ask. trial_ask (unread words.entry) ≡ Ok (command_of ask))
        (λ fault. trial_ask (unread words.entry) ≡ Err fault.at) }
    ensures limits { IfOk result IsLimitedAsk }
{
    let start = words.number()?;
    let count = words.number_up_to(MOST_RECORDS)?;
    words.end()?;
    Ok(Ask::Trial(start, count))
}

// What a command with the words behind it asks for.
#[tactic(auto, unfolding(crate::specs::Words::command_ask))]
fn read_command<'a>(command: &str, words: Cursor<'a>) -> Result<Ask<'a>, WordFault>
    ensures ask { MatchResult result
        (λ ask. command_ask command.now (unread words.entry) ≡ Ok (command_of ask))
        (λ fault. command_ask command.now (unread words.entry) ≡ Err fault.at) }
    ensures limits { IfOk result IsLimitedAsk }
{
    match command {
        "--help" => no_place(Ask::Help, words),
        "-h" => no_place(Ask::Help, words),
        "--version" => no_place(Ask::Version, words),
        "pages" => Ok(Ask::Pages(only_place(words)?)),
        "info" => Ok(Ask::Info(only_place(words)?)),
        "list" => Ok(Ask::List(only_place(words)?)),
        "check" => Ok(Ask::Check(only_place(words)?)),
        "blob" => read_blob(words),
        "extract" => read_extract(words),
        "repack" => read_repack(words),
        "filter" => read_filter(words),
        "trial" => read_trial(words),
        _ => Err(WordFault { at: 0 }),
    }
}

/// Reads the words of a command line, without the program's name. Takes no memory.
pub fn read_words(words: &[String]) -> Result<Ask<'_>, WordFault>
    ensures ask { MatchResult result
        (λ ask. ask_of (map string_bytes words.now) ≡ Ok (command_of ask))
        (λ fault. ask_of (map string_bytes words.now) ≡ Err fault.at) }
    ensures limits { IfOk result IsLimitedAsk }
{
    let [command, ..] = words else {
        return Err(WordFault { at: 0 });
    };
    read_command(command.as_str(), Cursor::behind_command(words))
}
