//! Pages of an open file of the disk, read ahead in runs.

ghost use Rattle.std.specs.Prelude.{◌≡◌, ◌-◌, ◌*◌, ◌≤◌, length, true};
ghost use Rattle.e57_base.specs.Source.{page_of};

use std::alloc::Global;
use std::fs::File;
use std::os::unix::fs::FileExt;

// The pages of a run, which one call of the system reads.
const RUN_PAGES: usize = 64;

/// The last run of pages that was read ahead, and the page that would follow the last one asked for.
#[derive(Drop)]
pub struct ReadAhead {
    // Room for a run; empty where there was no memory for it, and then each page is read by itself.
    run: Vec<u8>,
    first: u64,
    pages: u64,
    next: Option<u64>,
    ghost in_run: { 1024 * pages ≤ length run.items },
}

impl ReadAhead {
    /// Nothing read yet. Takes no memory.
    pub fn new(alloc: Global) -> Self {
        ReadAhead {
            run: Vec::new(alloc),
            first: 0,
            pages: 0,
            next: None,
        }
    }

    /// Forgets what was read, since another file is open, and takes memory for a run if there is none yet.
    pub fn start(&mut self) {
        self.pages = 0;
        self.next = None;
        if self.run.is_empty() {
            let _ = self.run.resize(1024 * RUN_PAGES, 0);
        }
    }

    /// Reads page `n` of the file, and whether it could. If `n` follows the page asked for before, a run is read from
    /// there on, as long as the file goes.
    pub fn read(&mut self, file: &File, n: u64, out: &mut [u8; 1024]) -> bool {
        let follows = self.next == Some(n);
        self.next = n.checked_add(1);
        if self.give(n, out) {
            return true;
        }
        let Some(at) = n.checked_mul(1024) else {
            return false;
        };
        if follows {
            self.first = n;
            self.pages = 0;
            let got = file.read_at(&mut self.run, at).unwrap_or(0);
            self.pages = got as u64 / 1024;
            if self.give(n, out) {
                return true;
            }
        }
        file.read_exact_at(out, at).is_ok()
    }

    // Copies page `n` if the run has it.
    fn give(&self, n: u64, out: &mut [u8; 1024]) -> bool
        ensures { result ≡ true → out.new ≡ page_of self.now.run.items (n - self.now.first) }
    {
        if n < self.first || n - self.first >= self.pages {
            return false;
        }
        let (_, rest) = self.run.split_at(1024 * (n - self.first) as usize);
        let (page, _) = rest.split_at(1024);
        out.copy_from_slice(page);
        true
    }
}
