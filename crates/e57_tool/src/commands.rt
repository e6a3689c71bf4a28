//! Each command by its words.

ghost use Rattle.e57_tool.specs.Run.{Keeps};
ghost use Rattle.e57_tool.specs.Words.{IsLimitedAsk, command_of};
ghost use Rattle.e57_tool.specs.Commands.{promise_of};

use crate::blob::show_blob;
use crate::check::check_file;
use crate::ending::Ending;
use crate::extract::show_rows;
use crate::filter::filter_file;
use crate::info::show_info;
use crate::list::show_list;
use crate::pages::test_pages;
use crate::repack::repack_file;
use crate::text::{put_help, put_version};
use crate::trials::put_trial;
use crate::words::Ask;
use e57_base::{Sink, Source, Target};
use std::alloc::Global;

/// Does what the words ask for. The source and the target are given back.
pub fn perform<S: Source, T: Target, O: Sink>(
    alloc: Global,
    ask: Ask<'_>,
    source: S,
    target: T,
    out: &mut O,
) -> (S, T, Ending)
    requires { IsLimitedAsk ask }
    ensures { Keeps S.view T.view O.view (promise_of (command_of ask.entry)) source target out.old result out.new }
{
    match ask {
        Ask::Help => put_help(source, target, out),
        Ask::Version => put_version(source, target, out),
        Ask::Pages(file) => test_pages(file, source, target, out),
        Ask::Info(file) => show_info(alloc, file, source, target, out),
        Ask::List(file) => show_list(alloc, file, source, target, out),
        Ask::Check(file) => check_file(alloc, file, source, target, out),
        Ask::Blob(file, k) => show_blob(alloc, file, k, source, target, out),
        Ask::Extract(file, ask) => show_rows(alloc, file, &ask, source, target, out),
        Ask::Repack(file, made, chunk, tight) => {
            repack_file(alloc, file, made, chunk, tight, source, target, out)
        }
        Ask::Filter(file, made, ask) => {
            filter_file(alloc, file, made, &ask, source, target, out)
        }
        Ask::Trial(start, count) => put_trial(alloc, start, count, source, target, out),
    }
}
