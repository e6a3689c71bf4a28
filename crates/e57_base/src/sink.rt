//! Where text and bytes are put.

ghost use Rattle.e57_base.specs.Sink.{SinkView, Puts};

use crate::fault::Failed;

/// A sink that bytes are put into, one piece after another.
pub trait Sink {
    /// What the sink tells.
    ghost view: { Self → SinkView };

    /// Puts a piece behind what is there. After a failed call a front of the piece stands there.
    fn put(&mut self, piece: &[u8]) -> Result<(), Failed>
        ensures { Puts (view self.old) piece.now result (view self.new) };
}
