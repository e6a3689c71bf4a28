//! Lines of text of bounded length.

ghost use Rattle.std.specs.Prelude.{◌≡◌, ◌≤◌, ◌++◌, length};
ghost use Rattle.e57_tool.specs.Lines.{pages_line, accepted_line, trial_line, refused_line, second_line, fault_words, ask_numbers, ask_line, words_line};

use arrayvec::ArrayString;
use e57_base::{AskFault, Fault};
use itoa::Buffer;

/// Room for the longest line.
pub type Line = ArrayString<128>;

/// `pages N xml PLACE LENGTH`
pub fn pages_line(count: u64, place: u64, length: u64) -> Line
    ensures { result.bytes ≡ pages_line count place length }
{
    let mut line = Line::new();
    line.push_str("pages ");
    line.push_str(Buffer::new().format(count));
    line.push_str(" xml ");
    line.push_str(Buffer::new().format(place));
    line.push_str(" ");
    line.push_str(Buffer::new().format(length));
    line.push_str("\n");
    line
}

/// `accepted CLOUDS BLOBS RECORDS`
pub fn accepted_line(clouds: u64, blobs: u64, records: u64) -> Line
    ensures { result.bytes ≡ accepted_line clouds blobs records }
{
    let mut line = Line::new();
    line.push_str("accepted ");
    line.push_str(Buffer::new().format(clouds));
    line.push_str(" ");
    line.push_str(Buffer::new().format(blobs));
    line.push_str(" ");
    line.push_str(Buffer::new().format(records));
    line.push_str("\n");
    line
}

/// `trial START COUNT first L1 second L2 sum X`
pub fn trial_line(start: u64, count: u64, first: u64, second: u64, sum: u64) -> Line
    ensures { result.bytes ≡ trial_line start count first second sum }
{
    let mut line = Line::new();
    line.push_str("trial ");
    line.push_str(Buffer::new().format(start));
    line.push_str(" ");
    line.push_str(Buffer::new().format(count));
    line.push_str(" first ");
    line.push_str(Buffer::new().format(first));
    line.push_str(" second ");
    line.push_str(Buffer::new().format(second));
    line.push_str(" sum ");
    line.push_str(Buffer::new().format(sum));
    line.push_str("\n");
    line
}

/// `refused KIND A B`
pub fn refused_line(fault: &Fault) -> Line
    ensures { result.bytes ≡ refused_line fault.now }
{
    let mut line = Line::new();
    line.push_str("refused ");
    push_fault(&mut line, fault);
    line
}

/// `second KIND A B`
pub fn second_line(fault: &Fault) -> Line
    ensures { result.bytes ≡ second_line fault.now }
{
    let mut line = Line::new();
    line.push_str("second ");
    push_fault(&mut line, fault);
    line
}

// Appends the kind and the two numbers of a fault, and a line feed.
fn push_fault(line: &mut Line, fault: &Fault)
    requires { length line.old.bytes ≤ 8 }
    ensures { line.new.bytes ≡ line.old.bytes ++ fault_words fault.now }
{
    line.push_str(fault.kind.name());
    line.push_str(" ");
    line.push_str(Buffer::new().format(fault.a));
    line.push_str(" ");
    line.push_str(Buffer::new().format(fault.b));
    line.push_str("\n");
}

/// `ask WORD ASKED HAVE`, or `ask large`
pub fn ask_line(fault: &AskFault) -> Line
    ensures { result.bytes ≡ ask_line fault.now }
{
    match fault {
        AskFault::Cloud { asked, have } => ask_numbers("cloud", *asked, *have),
        AskFault::Blob { asked, have } => ask_numbers("blob", *asked, *have),
        AskFault::Field { asked, have } => ask_numbers("field", *asked, *have),
        AskFault::Keep { asked, have } => ask_numbers("keep", *asked, *have),
        AskFault::NotInteger { asked, have } => ask_numbers("integer", *asked, *have),
        AskFault::Range { asked, have } => ask_numbers("range", *asked, *have),
        AskFault::Decimal { asked, have } => ask_numbers("decimal", *asked, *have),
        AskFault::Clash { asked, have } => ask_numbers("clash", *asked, *have),
        AskFault::Length { asked, have } => ask_numbers("length", *asked, *have),
        AskFault::Header { asked, have } => ask_numbers("header", *asked, *have),
        AskFault::Width { asked, have } => ask_numbers("width", *asked, *have),
        AskFault::Cell { asked, have } => ask_numbers("cell", *asked, *have),
        AskFault::Large => text_line("ask large\n"),
    }
}

// A line of a word and two numbers.
fn ask_numbers(word: &str, asked: u64, have: u64) -> Line
    requires { length word.now ≤ 8 }
    ensures { result.bytes ≡ ask_numbers word.now asked have }
{
    let mut line = Line::new();
    line.push_str("ask ");
    line.push_str(word);
    line.push_str(" ");
    line.push_str(Buffer::new().format(asked));
    line.push_str(" ");
    line.push_str(Buffer::new().format(have));
    line.push_str("\n");
    line
}

/// `words N`
pub fn words_line(at: u64) -> Line
    ensures { result.bytes ≡ words_line at }
{
    let mut line = Line::new();
    line.push_str("words ");
    line.push_str(Buffer::new().format(at));
    line.push_str("\n");
    line
}

/// A line that has no number.
pub fn text_line(text: &str) -> Line
    requires { length text.now ≤ 128 }
    ensures { result.bytes ≡ text.now }
{
    let mut line = Line::new();
    line.push_str(text);
    line
}
