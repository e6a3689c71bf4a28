//! Pages of a new file of the disk, gathered before they are written.

ghost use Rattle.std.specs.Prelude.{◌≡◌, ◌+◌, ◌*◌, ◌^◌, ◌<◌, ◌≤◌, length, true};
ghost use Rattle.e57_base.specs.MemTarget.{with_piece};

use std::alloc::Global;
use std::fs::File;
use std::os::unix::fs::FileExt;

// The pages of a run, which one call of the system writes.
const RUN_PAGES: usize = 64;

/// A run of pages that follow one another, which are put and not yet written.
#[derive(Drop)]
pub struct Gathered {
    // Room for a run; empty where there was no memory for it, and then each page is written by itself.
    run: Vec<u8>,
    first: u64,
    pages: usize,
    ghost in_run: { 1024 * pages ≤ length run.items },
    ghost in_file: { first < 2 ^ 50 },
}

impl Gathered {
    /// No page yet. Takes no memory.
    pub fn new(alloc: Global) -> Self {
        Gathered {
            run: Vec::new(alloc),
            first: 0,
            pages: 0,
        }
    }

    /// Forgets the pages, since another file is created, and takes memory for a run if there is none yet.
    pub fn start(&mut self) {
        self.pages = 0;
        if self.run.is_empty() {
            let _ = self.run.resize(1024 * RUN_PAGES, 0);
        }
    }

    /// Puts page `n` behind the others, and whether it could. If it doesn't follow them, or there is no room, they are
    /// written first; where that fails, they stay, and the page isn't put.
    pub fn put(&mut self, file: &File, n: u64, page: &[u8; 1024]) -> bool
        requires { n < 2 ^ 50 }
    {
        if !self.has_place(n) && !self.write(file) {
            return false;
        }
        if self.has_place(n) {
            self.gather(n, page);
            return true;
        }
        file.write_all_at(page, 1024 * n).is_ok()
    }

    // Whether page `n` follows the others, if there are any, and there is room for it.
    fn has_place(&self, n: u64) -> bool
        ensures { result ≡ true → 1024 * (self.now.pages + 1) ≤ length self.now.run.items }
    {
        let follows = self.pages == 0 || n == self.first + self.pages as u64;
        follows && self.run.len() / 1024 > self.pages
    }

    // Gathers page `n`.
    fn gather(&mut self, n: u64, page: &[u8; 1024])
        requires number { n < 2 ^ 50 }
        requires room { 1024 * (self.old.pages + 1) ≤ length self.old.run.items }
    {
        write_page(&mut self.run, self.pages, page);
        self.first = n.saturating_sub(self.pages as u64);
        self.pages += 1;
    }

    /// Writes the pages, and whether it could. Where it couldn't, they stay.
    pub fn write(&mut self, file: &File) -> bool {
        if self.pages == 0 {
            return true;
        }
        let (pages, _) = self.run.split_at(1024 * self.pages);
        if file.write_all_at(pages, 1024 * self.first).is_err() {
            return false;
        }
        self.pages = 0;
        true
    }
}

// Writes a page in one of the places of a run.
fn write_page(run: &mut [u8], place: usize, page: &[u8; 1024])
    requires { 1024 * (place + 1) ≤ length run.old }
    ensures page { run.new ≡ with_piece (1024 * place) page.now run.old }
    ensures size { length run.new ≡ length run.old }
{
    let at = 1024 * place;
    run[at..at + page.len()].copy_from_slice(page);
}
