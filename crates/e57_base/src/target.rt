//! Where a new file is written to.

ghost use Rattle.e57_base.specs.Target.{TargetView, Creates, TakesPage, PutsPage, Finishes};

use crate::fault::Failed;

/// A target of a new file, which is written page by page.
pub trait Target {
    /// What the target tells.
    ghost view: { Self → TargetView };

    /// Creates the file of this name, with no byte. After a failed call it holds what it held, or no byte.
    fn create(&mut self, name: &str) -> Result<(), Failed>
        ensures { Creates (view self.old) name.now result (view self.new) };

    /// Writes page `n`, one that was put before or the next. A failed call may leave any mixture of the old and the
    /// new bytes in that page, and changes no other.
    fn put_page(&mut self, n: u64, page: &[u8; 1024]) -> Result<(), Failed>
        requires { TakesPage (view self.old) n }
        ensures { PutsPage (view self.old) n page.now result (view self.new) };

    /// Ends the file. No byte changes.
    fn finish(&mut self) -> Result<(), Failed>
        ensures { Finishes (view self.old) result (view self.new) };
}
