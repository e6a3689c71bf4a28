//! The numbers of the format that bound a text and its tree.

/// How many bytes a text has at most.
pub const MAX_TEXT: usize = 1 << 26;

/// How many attributes an element has at most.
pub const MAX_ATTRS: usize = 64;

/// How many elements are open within one another at most. The root has depth 1.
pub const MAX_DEPTH: usize = 64;

/// How many elements a tree has at most.
pub const MAX_ELEMENTS: usize = 1 << 20;
