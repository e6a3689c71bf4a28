//! The options of `repack`.

ghost use Rattle.std.specs.Prelude.{◌≡◌, IfSome, None, Some, option_map};
ghost use Rattle.e57_chunk_out.specs.CloudCalls.{IsChunkLength};
ghost use Rattle.e57_tool.specs.Options.{given_once};
ghost use Rattle.e57_tool.specs.RepackOptions.{IsLawfulRepack, RepackGiven, chunk_asked, chunk_given, no_repack_given, repack_given, repack_rows, tight_asked, tight_given};

use crate::cursor::number_of;
use crate::given::Given;
use crate::options::value_behind;

/// The options of `repack`.
#[derive(Clone, Copy)]
pub struct RepackOptions {
    /// How many records a chunk has.
    pub chunk: Option<u32>,
    /// Whether the limits of integer fields become as narrow as their values.
    pub tight: Option<bool>,
}

/// How many records a chunk has, if no number is given.
const DEFAULT_CHUNK: u32 = 8192;

/// The most records of a chunk.
const MOST_OF_CHUNK: u64 = 1 << 20;

impl RepackOptions {
    /// How many records a chunk has.
    pub fn chunk_length(&self) -> u32
        requires { IsLawfulRepack self.now }
        ensures chunk { result ≡ chunk_given (repack_given self.now) }
        ensures lawful { IsChunkLength result }
    {
        self.chunk.unwrap_or(DEFAULT_CHUNK)
    }

    /// Whether the limits of integer fields become narrow.
    pub fn is_tight(&self) -> bool
        ensures { result ≡ tight_given (repack_given self.now) }
    {
        self.tight.unwrap_or(false)
    }
}

// The number of records of a chunk: a multiple of 8 from 8 to 2^20.
#[tactic(auto, unfolding(crate::specs::RepackOptions::chunk_asked))]
fn chunk_asked(value: &str) -> Option<u32>
    ensures value { result ≡ chunk_asked value.now }
    ensures lawful { IfSome result IsChunkLength }
{
    let n = number_of(value)?;
    if n == 0 || n > MOST_OF_CHUNK || n % 8 != 0 {
        return None;
    }
    Some(n as u32)
}

// Whether narrow limits are asked for: `yes` is the one value.
fn tight_asked(value: &str) -> Option<bool>
    ensures { result ≡ tight_asked value.now }
{
    if value == "yes" { Some(true) } else { None }
}

// These options, and how many records a chunk has, if no number stands and this may.
fn with_chunk(given: RepackOptions, value: &str) -> Option<RepackOptions>
    requires { IsLawfulRepack given }
    ensures given { option_map repack_given result ≡ given_once (repack_given given).chunk (chunk_asked value.now) (λ n. record (repack_given given) { chunk = Some n }) }
    ensures lawful { IfSome result IsLawfulRepack }
{
    match (given.chunk, chunk_asked(value)) {
        (None, Some(n)) => Some(RepackOptions {
            chunk: Some(n),
            tight: given.tight,
        }),
        _ => None,
    }
}

// These options, and that limits become narrow, if that doesn't stand and the value is `yes`.
fn with_tight(given: RepackOptions, value: &str) -> Option<RepackOptions>
    requires { IsLawfulRepack given }
    ensures given { option_map repack_given result ≡ given_once (repack_given given).tight (tight_asked value.now) (λ b. record (repack_given given) { tight = Some b }) }
    ensures lawful { IfSome result IsLawfulRepack }
{
    match (given.tight, tight_asked(value)) {
        (None, Some(tight)) => Some(RepackOptions {
            chunk: given.chunk,
            tight: Some(tight),
        }),
        _ => None,
    }
}

impl<'a> Given<'a> for RepackOptions {
    ghost Meaning = { RepackGiven };

    ghost meaning = { λ options. repack_given options };

    ghost rows = { repack_rows };

    ghost nothing = { no_repack_given };

    ghost is_lawful = { λ options. IsLawfulRepack options };

    fn none() -> RepackOptions {
        RepackOptions {
            chunk: None,
            tight: None,
        }
    }

    #[tactic(auto, unfolding(crate::specs::Options::with_option))]
    fn with_option(self, word: &'a str) -> Option<RepackOptions> {
        if let Some(value) = value_behind("--chunk=", word) {
            return with_chunk(self, value);
        }
        if let Some(value) = value_behind("--tight=", word) {
            return with_tight(self, value);
        }
        None
    }
}
