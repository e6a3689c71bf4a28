//! Where files are read from.

ghost use Rattle.e57_base.specs.Source.{SourceView, HoldsSize, Opens, HasPage, ReadsPage, HasRest, ReadsRest};

use crate::fault::Failed;

/// A source of files, of which one is open at a time. It is read page by page.
pub trait Source {
    /// What the source tells.
    ghost view: { Self → SourceView };

    /// Opens the file of this name in place of the one before, and answers its length in bytes. A failed call
    /// leaves no file open.
    fn open(&mut self, name: &str) -> Result<u64, Failed>
        ensures { Opens (view self.old) name.now result (view self.new) };

    /// Reads page `n` of the open file, its bytes from 1024 * `n` on. A failed call leaves any bytes in `out`.
    fn read_page(&mut self, n: u64, out: &mut [u8; 1024]) -> Result<(), Failed>
        requires { HasPage (view self.old) n }
        ensures { ReadsPage (view self.old) n out.new result (view self.new) };

    /// Reads the bytes of the open file behind its whole pages, fewer than 1024, with zeros behind them. A failed call
    /// leaves any bytes in `out`.
    fn read_rest(&mut self, out: &mut [u8; 1024]) -> Result<(), Failed>
        requires { HasRest (view self.old) }
        ensures { ReadsRest (view self.old) out.new result (view self.new) };

    /// What is held is as long as the open file.
    ghost holds_size: { (source : Self) → HoldsSize (view source) };
}
