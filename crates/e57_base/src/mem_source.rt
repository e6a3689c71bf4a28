//! A source of files in memory.

ghost use Rattle.std.specs.Prelude.{◌≡◌, ℕ, List, ◌<◌, ◌≤◌, ◌/◌, ◌&&◌, [], ◌∷◌, ◌++◌, if◌then◌else◌, nat_lt, length, not, is_ok, IfSome, IsNone, OnOk, OnErr, IfOk};
ghost use Rattle.std.specs.Option.{option_map};
ghost use Rattle.std.specs.Vec.{vec_capacity};
ghost use Rattle.std.specs.Result.{result_ok};
ghost use Rattle.std.specs.FinMap.{get};
ghost use Rattle.e57_base.specs.Calls.{is_failing, failing_at};
ghost use Rattle.e57_base.specs.Source.{Opens, HasPage, ReadsPage, HasRest, ReadsRest};
ghost use Rattle.e57_base.specs.MemSource.{initial_source, source_view, with_file, file_opened, after_open, after_read, page_left, rest_left, source_holds_size};

use crate::calls::Calls;
use crate::fault::Failed;
use crate::files::{NamedFile, index_of, size_at};
use crate::page::{copy_page, copy_rest};
use crate::source::Source;
use std::alloc::{AllocError, Global};
use std::marker::Model;

/// A source of files in memory. It keeps a log of the pages that were asked for, and fails at the calls that are
/// listed, which are counted from 0.
#[derive(Drop)]
pub struct MemSource {
    files: Vec<NamedFile>,
    current: Option<usize>,
    log: Vec<u64>,
    log_room: usize,
    is_log_whole: bool,
    calls: Calls,
    opened: u64,
    missed: u64,
    faults: u64,
}

impl Model for MemSource {
    ghost use Rattle.std.specs.Prelude.{◌≤◌, ◌<◌, length, IfSome};
    ghost use Rattle.std.specs.Vec.{vec_capacity};
    ghost use Rattle.e57_base.specs.MemSource.{SourceState, source_code};

    ghost Value = { SourceState };

    ghost coded = { source_code };

    ghost use Rattle.e57_base.specs.Files.{stock_of, bytes_at};

    ghost view = { λ source. record {
      files = stock_of source.files.items;
      held = bytes_at source.files.items source.current;
      asked = source.log.items;
      told = source.is_log_whole;
      room = source.log_room;
      calls = source.calls;
      opened = source.opened;
      missed = source.missed;
      faults = source.faults;
    } };

    ghost invariant = { λ source. (source.log_room ≤ vec_capacity source.log) × IfSome source.current (λ place. place < length source.files.items) };
}

impl MemSource {
    /// A source with no file, and with room in its log for so many pages.
    pub fn new(alloc: Global, log_room: usize) -> Result<MemSource, AllocError>
        ensures initial { IfOk result (λ source. source ≡ initial_source log_room) }
        ensures absent { IfOk result (λ source. (name : List ℕ) → IsNone (get source.files name)) }
    {
        let log = Vec::with_capacity(alloc, log_room)?;
        Ok(MemSource {
            files: Vec::new(alloc),
            current: None,
            log,
            log_room,
            is_log_whole: true,
            calls: Calls::new(alloc),
            opened: 0,
            missed: 0,
            faults: 0,
        })
    }

    /// Adds a file.
    pub fn add(&mut self, name: &str, bytes: Vec<u8>) -> Result<(), AllocError>
        requires { IsNone (get self.old.files name.now) }
        ensures ok { OnOk result (self.new ≡ with_file name.now bytes.items self.old) }
        ensures err { OnErr result (self.new ≡ self.old) }
    {
        let file = NamedFile::new(*self.files.allocator(), name, bytes)?;
        self.files.push(file)?;
        Ok(())
    }

    /// Lists a call that is to fail.
    pub fn fail_at(&mut self, call: u64) -> Result<(), AllocError>
        ensures ok { OnOk result (self.new ≡ record self.old { calls = failing_at call self.old.calls }) }
        ensures err { OnErr result (self.new ≡ self.old) }
    {
        self.calls.fail_at(call)
    }

    /// The pages that were asked for, in order, as many as had room in the log.
    pub fn asked(&self) -> &[u64]
        ensures { result.now ≡ self.now.asked }
    {
        &self.log
    }
}

impl Source for MemSource {
    ghost view = { source_view };

    /// Opens the file of this name. It fails where the call is listed, or there is no such file.
    #[tactic(auto, unfolding(crate::specs::MemSource::after_open))]
    fn open(&mut self, name: &str) -> Result<u64, Failed>
        ensures opens { Opens (source_view self.old) name.now result (source_view self.new) }
        ensures answer { result_ok result ≡ option_map length (file_opened self.old name.now) }
        ensures after { self.new ≡ after_open self.old name.now }
    {
        let is_failing = self.calls.count();
        self.opened = self.opened.saturating_add(1);
        self.current = None;
        let Some(place) = index_of(&self.files, name) else {
            self.missed = self.missed.saturating_add(1);
            self.faults = self.faults.saturating_add(1);
            return Err(Failed);
        };
        if is_failing {
            self.faults = self.faults.saturating_add(1);
            return Err(Failed);
        }
        self.current = Some(place);
        Ok(size_at(&self.files, place))
    }

    /// Reads page `n` of the open file. It fails where the call is listed, and then leaves `out` as it was.
    #[tactic(auto, unfolding(crate::specs::MemSource::after_read))]
    fn read_page(&mut self, n: u64, out: &mut [u8; 1024]) -> Result<(), Failed>
        requires { HasPage (source_view self.old) n }
        ensures reads { ReadsPage (source_view self.old) n out.new result (source_view self.new) }
        ensures answer { is_ok result ≡ not (is_failing self.old.calls) }
        ensures page { IfSome self.old.held (λ file. out.new ≡ page_left self.old n file out.old) }
        ensures after { self.new ≡ after_read self.old n }
    {
        write_log(&mut self.log, self.log_room, &mut self.is_log_whole, n);
        if self.calls.count() {
            self.faults = self.faults.saturating_add(1);
            return Err(Failed);
        }
        if let Some(at) = self.current {
            copy_page(&self.files[at].bytes, n, out);
        }
        Ok(())
    }

    /// Reads the bytes of the open file behind its whole pages. It fails where the call is listed, and then leaves
    /// `out` as it was. In the log it stands as the page that the rest begins.
    #[tactic(auto, unfolding(crate::specs::MemSource::after_read))]
    fn read_rest(&mut self, out: &mut [u8; 1024]) -> Result<(), Failed>
        requires { HasRest (source_view self.old) }
        ensures reads { ReadsRest (source_view self.old) out.new result (source_view self.new) }
        ensures answer { is_ok result ≡ not (is_failing self.old.calls) }
        ensures rest { IfSome self.old.held (λ file. out.new ≡ rest_left self.old file out.old) }
        ensures after { IfSome self.old.held (λ file. self.new ≡ after_read self.old (length file / 1024)) }
    {
        let Some(at) = self.current else {
            return Err(Failed);
        };
        let whole_pages = size_at(&self.files, at) / 1024;
        write_log(
            &mut self.log,
            self.log_room,
            &mut self.is_log_whole,
            whole_pages,
        );
        let is_listed = self.calls.count();
        if is_listed {
            self.faults = self.faults.saturating_add(1);
            return Err(Failed);
        }
        copy_rest(&self.files[at].bytes, out);
        Ok(())
    }

    ghost holds_size = { source_holds_size };
}

// Writes page `n` into a log that takes so many, where there is room. Else the log isn't whole any more.
fn write_log(log: &mut Vec<u64>, room: usize, is_whole: &mut bool, n: u64)
    requires { room ≤ vec_capacity log.old }
    ensures pages { log.new.items ≡ (if nat_lt (length log.old.items) room then log.old.items ++ n ∷ [] else log.old.items) }
    ensures whole { is_whole.new ≡ (is_whole.old && nat_lt (length log.old.items) room) }
    ensures capacity { vec_capacity log.old ≤ vec_capacity log.new }
{
    if log.len() < room {
        log.push_reserved(n);
    } else {
        *is_whole = false;
    }
}
