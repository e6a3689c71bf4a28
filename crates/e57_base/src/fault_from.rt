//! The fault of one call as that of a call that passes it on, so that `?` and `map_err` carry it.

use crate::fault::{AskFault, OpenFault, PutFault, ReadFault, RunFault, TextFault, WriteFault};
use std::alloc::{AllocError, AllocFailed};

impl From<ReadFault> for OpenFault {
    ghost use Rattle.std.specs.Prelude.{◌≡◌};
    ghost use Rattle.e57_base.specs.Fault.{read_as_open};

    ghost from_gives = { λ given fault. fault ≡ read_as_open given };

    fn from(given: ReadFault) -> OpenFault {
        match given {
            ReadFault::Refused(found) => OpenFault::Refused(found),
            ReadFault::Source => OpenFault::Source,
        }
    }
}

impl From<ReadFault> for RunFault {
    ghost use Rattle.std.specs.Prelude.{◌≡◌};
    ghost use Rattle.e57_base.specs.Fault.{read_as_run};

    ghost from_gives = { λ given fault. fault ≡ read_as_run given };

    fn from(given: ReadFault) -> RunFault {
        match given {
            ReadFault::Refused(found) => RunFault::Refused(found),
            ReadFault::Source => RunFault::Source,
        }
    }
}

impl From<TextFault> for OpenFault {
    ghost use Rattle.std.specs.Prelude.{◌≡◌};
    ghost use Rattle.e57_base.specs.Fault.{text_as_open};

    ghost from_gives = { λ given fault. fault ≡ text_as_open given };

    fn from(given: TextFault) -> OpenFault {
        match given {
            TextFault::Refused(found) => OpenFault::Refused(found),
            TextFault::Memory => OpenFault::Memory,
        }
    }
}

impl From<OpenFault> for RunFault {
    ghost use Rattle.std.specs.Prelude.{◌≡◌};
    ghost use Rattle.e57_base.specs.Fault.{open_as_run};

    ghost from_gives = { λ given fault. fault ≡ open_as_run given };

    fn from(given: OpenFault) -> RunFault {
        match given {
            OpenFault::Refused(found) => RunFault::Refused(found),
            OpenFault::Source => RunFault::Source,
            OpenFault::Memory => RunFault::Memory,
        }
    }
}

impl From<PutFault> for WriteFault {
    ghost use Rattle.std.specs.Prelude.{◌≡◌};
    ghost use Rattle.e57_base.specs.Fault.{put_as_write};

    ghost from_gives = { λ given fault. fault ≡ put_as_write given };

    fn from(given: PutFault) -> WriteFault {
        match given {
            PutFault::Target => WriteFault::Target,
            PutFault::Large => WriteFault::Large,
        }
    }
}

/// A file that would be too large is one that was asked for.
impl From<WriteFault> for RunFault {
    ghost use Rattle.std.specs.Prelude.{◌≡◌};
    ghost use Rattle.e57_base.specs.Fault.{write_as_run};

    ghost from_gives = { λ given fault. fault ≡ write_as_run given };

    fn from(given: WriteFault) -> RunFault {
        match given {
            WriteFault::Target => RunFault::Out,
            WriteFault::Large => RunFault::Ask(AskFault::Large),
            WriteFault::Memory => RunFault::Memory,
        }
    }
}

impl From<AskFault> for RunFault {
    ghost use Rattle.std.specs.Prelude.{◌≡◌};
    ghost use Rattle.e57_base.specs.declared.fault.RunFault.TheVariants.{Ask};

    ghost from_gives = { λ given fault. fault ≡ Ask given };

    fn from(given: AskFault) -> RunFault {
        RunFault::Ask(given)
    }
}

impl From<AllocError> for TextFault {
    ghost use Rattle.std.specs.Prelude.{◌≡◌};
    ghost use Rattle.e57_base.specs.declared.fault.TextFault.TheVariants.{Memory};

    ghost from_gives = { λ _ fault. fault ≡ Memory };

    fn from(_given: AllocError) -> TextFault {
        TextFault::Memory
    }
}

impl<T: Drop> From<AllocFailed<T>> for TextFault {
    ghost use Rattle.std.specs.Prelude.{◌≡◌};
    ghost use Rattle.e57_base.specs.declared.fault.TextFault.TheVariants.{Memory};

    ghost from_gives = { λ _ fault. fault ≡ Memory };

    fn from(_given: AllocFailed<T>) -> TextFault {
        TextFault::Memory
    }
}

impl From<AllocError> for OpenFault {
    ghost use Rattle.std.specs.Prelude.{◌≡◌};
    ghost use Rattle.e57_base.specs.declared.fault.OpenFault.TheVariants.{Memory};

    ghost from_gives = { λ _ fault. fault ≡ Memory };

    fn from(_given: AllocError) -> OpenFault {
        OpenFault::Memory
    }
}

impl<T: Drop> From<AllocFailed<T>> for OpenFault {
    ghost use Rattle.std.specs.Prelude.{◌≡◌};
    ghost use Rattle.e57_base.specs.declared.fault.OpenFault.TheVariants.{Memory};

    ghost from_gives = { λ _ fault. fault ≡ Memory };

    fn from(_given: AllocFailed<T>) -> OpenFault {
        OpenFault::Memory
    }
}

impl From<AllocError> for WriteFault {
    ghost use Rattle.std.specs.Prelude.{◌≡◌};
    ghost use Rattle.e57_base.specs.declared.fault.WriteFault.TheVariants.{Memory};

    ghost from_gives = { λ _ fault. fault ≡ Memory };

    fn from(_given: AllocError) -> WriteFault {
        WriteFault::Memory
    }
}

impl<T: Drop> From<AllocFailed<T>> for WriteFault {
    ghost use Rattle.std.specs.Prelude.{◌≡◌};
    ghost use Rattle.e57_base.specs.declared.fault.WriteFault.TheVariants.{Memory};

    ghost from_gives = { λ _ fault. fault ≡ Memory };

    fn from(_given: AllocFailed<T>) -> WriteFault {
        WriteFault::Memory
    }
}

impl From<AllocError> for RunFault {
    ghost use Rattle.std.specs.Prelude.{◌≡◌};
    ghost use Rattle.e57_base.specs.declared.fault.RunFault.TheVariants.{Memory};

    ghost from_gives = { λ _ fault. fault ≡ Memory };

    fn from(_given: AllocError) -> RunFault {
        RunFault::Memory
    }
}

impl<T: Drop> From<AllocFailed<T>> for RunFault {
    ghost use Rattle.std.specs.Prelude.{◌≡◌};
    ghost use Rattle.e57_base.specs.declared.fault.RunFault.TheVariants.{Memory};

    ghost from_gives = { λ _ fault. fault ≡ Memory };

    fn from(_given: AllocFailed<T>) -> RunFault {
        RunFault::Memory
    }
}
