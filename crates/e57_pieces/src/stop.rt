//! Why a reader gives nothing.

ghost use Rattle.std.specs.Prelude.{◌≡◌};
ghost use Rattle.e57_pieces.specs.declared.stop.Stop.TheVariants.{Memory};

use std::alloc::{AllocError, AllocFailed};

/// Why a reader that takes memory gives nothing.
#[derive(Debug, Drop)]
pub enum Stop {
    /// Memory ran out.
    Memory,
    /// It isn't spelled there.
    Absent,
}

impl From<AllocError> for Stop {
    ghost from_gives = { λ _ e. e ≡ Memory };

    fn from(_e: AllocError) -> Stop {
        Stop::Memory
    }
}

impl<T: Drop> From<AllocFailed<T>> for Stop {
    ghost from_gives = { λ _ e. e ≡ Memory };

    fn from(_e: AllocFailed<T>) -> Stop {
        Stop::Memory
    }
}
