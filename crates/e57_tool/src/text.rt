//! `--help` and `--version`.

ghost use Rattle.e57_tool.specs.Run.{Keeps};
ghost use Rattle.e57_tool.specs.Text.{help_promise, version_promise};

use crate::ending::Ending;
use e57_base::{RunFault, Sink, Source, Target};

/// The commands with their words, and the statuses.
const HELP: &str = "e57 pages FILE   test the checksums of all pages
e57 info FILE    show the element tree
e57 list FILE    list the clouds with their fields, and the blobs
e57 check FILE   judge the whole file
e57 blob FILE K  write the bytes of blob K
e57 extract FILE CLOUD [--fields=A,B] [--from=I] [--count=N] [--decimal=yes]  write records as rows
e57 repack IN OUT [--chunk=N] [--tight=yes]  write an accepted file anew
e57 filter IN OUT CLOUD [--fields=A,B] [--keep=FIELD:LOW:HIGH].. [--every=K] [--from=I] [--count=N]  write some of a cloud
e57 trial START COUNT  make two files of COUNT records in memory, check and read them
e57 --help       show this text, as -h does
e57 --version    show the version
status 0   done
status 1   the file has a fault
status 2   the words are no valid command
status 3   the file couldn't be opened or read
status 4   the output couldn't be written
status 5   out of memory
status 6   the file doesn't have what was asked for
";

/// The name and the version.
const VERSION: &str = "e57 0.1.0\n";

/// Puts the help on `out`.
pub fn put_help<S: Source, T: Target, O: Sink>(source: S, target: T, out: &mut O) -> (S, T, Ending)
    ensures { Keeps S.view T.view O.view help_promise source target out.old result out.new }
{
    match out.put(HELP.as_bytes()) {
        Ok(()) => (source, target, Ending::Done),
        Err(_) => (source, target, Ending::Failed(RunFault::Out)),
    }
}

/// Puts the name and the version on `out`.
pub fn put_version<S: Source, T: Target, O: Sink>(
    source: S,
    target: T,
    out: &mut O,
) -> (S, T, Ending)
    ensures { Keeps S.view T.view O.view version_promise source target out.old result out.new }
{
    match out.put(VERSION.as_bytes()) {
        Ok(()) => (source, target, Ending::Done),
        Err(_) => (source, target, Ending::Failed(RunFault::Out)),
    }
}
