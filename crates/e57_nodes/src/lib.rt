//! What the elements of a tree mean (ASTM E2807, XML section): their types, clouds with their fields, blobs, paths, and the
//! first fault of the first node at fault. Beside one plain type there are definitions, in `specs`, and their laws.
#![tactic(auto)]

mod theorems;

pub use theorems::other_places;

/// The type of an element (ASTM E2807, element types).
#[derive(Clone, Copy, Debug, PartialEq, Eq)]
pub enum ElementType {
    /// Named children.
    Structure,
    /// Children by position.
    Vector,
    /// Records in a section of their own, with fields as the prototype states them.
    CompressedVector,
    /// An integer within limits.
    Integer,
    /// An integer within limits, with a scale and an offset.
    ScaledInteger,
    /// A floating point number.
    Float,
    /// A string.
    String,
    /// Bytes in a section of their own.
    Blob,
}
