//! The program as one function.

ghost use Rattle.std.specs.Prelude.{◌≡◌, map, string_bytes, IfOk, IfErr};
ghost use Rattle.e57_tool.specs.Words.{ask_of};
ghost use Rattle.e57_tool.specs.Ending.{status_of, line_of, PutsLineOf};
ghost use Rattle.e57_tool.specs.Outside.{outside};
ghost use Rattle.e57_tool.specs.Run.{EndsAs, IsComplete, CallsSource, CallsTarget, RefusesWords};
ghost use Rattle.e57_tool.specs.Commands.{promise_of};

use crate::commands::perform;
use crate::ending::Ending;
use crate::lines::words_line;
use crate::status::Status;
use crate::words::read_words;
use e57_base::{Sink, Source, Target};
use std::alloc::Global;

// Puts the line of an ending on `err`, where it has one. That this may fail changes nothing.
fn report<E: Sink>(ending: Ending, err: &mut E) -> Status
    ensures status { result ≡ status_of ending }
    ensures line { PutsLineOf (E.view err.old) (line_of ending) (E.view err.new) }
{
    if let Some(line) = ending.line() {
        let _ = err.put(line.as_str().as_bytes());
    }
    ending.status()
}

/// Runs the program on the words of its command line. The source and the target are given back. It takes memory, save
/// for `pages`, `--help`, `--version` and words that ask for nothing.
pub fn run<S: Source, T: Target, O: Sink, E: Sink>(
    alloc: Global,
    words: &[String],
    source: S,
    target: T,
    out: &mut O,
    err: &mut E,
) -> (Status, S, T)
    // The words ask for nothing: no object is called but `err`.
    ensures words { IfErr (ask_of (map string_bytes words.now)) (λ at.
        RefusesWords at source result.1 target result.2 out.old out.new (E.view err.old) (E.view err.new) result.0) }

    // How the command ends.
    ensures outcome { IfOk (ask_of (map string_bytes words.now)) (λ command.
        EndsAs
        ((promise_of command).ends
        (outside (S.view source) (T.view target) (O.view out.old))
        (outside (S.view result.1) (T.view result.2) (O.view out.new)))
        (E.view err.old) (E.view err.new) result.0) }

    // Where all is there that the command needs, and no call failed, the run is done.
    ensures complete { IfOk (ask_of (map string_bytes words.now)) (λ command.
        IsComplete (promise_of command)
        (outside (S.view source) (T.view target) (O.view out.old))
        (outside (S.view result.1) (T.view result.2) (O.view out.new))
        result.0) }

    // The source is called for the command's files alone, and the target by a command that writes.
    ensures source { IfOk (ask_of (map string_bytes words.now)) (λ command.
        CallsSource (promise_of command).opens source result.1 (S.view source) (S.view result.1) result.0) }
    ensures target { IfOk (ask_of (map string_bytes words.now)) (λ command.
        CallsTarget (promise_of command).writes target result.2 (T.view target) (T.view result.2)) }
{
    let ask = match read_words(words) {
        Ok(ask) => ask,
        Err(fault) => {
            let _ = err.put(words_line(fault.at).as_str().as_bytes());
            return (Status::WordsFault, source, target);
        }
    };
    let (source, target, ending) = perform(alloc, ask, source, target, out);
    (report(ending, err), source, target)
}
