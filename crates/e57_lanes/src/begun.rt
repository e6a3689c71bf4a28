//! A word on its way to the bytes.

ghost use Rattle.std.specs.Prelude.{◌^◌, ◌<◌};

/// A word that is not full yet: its lowest `held` bits are to be put at byte `place`.
#[derive(Clone, Copy, Drop)]
pub(crate) struct Begun {
    pub(crate) place: usize,
    pub(crate) word: u64,
    pub(crate) held: usize,
    ghost not_full: { held < 64 },
    ghost fits: { word < 2 ^ held },
}
