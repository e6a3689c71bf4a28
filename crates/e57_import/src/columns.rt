//! What is asked of the columns of a text.

/// What the cells of a column are.
#[derive(Clone, Copy, Debug, PartialEq, Eq, Default)]
pub enum ColumnKind<'a> {
    /// Integers from `low` to `high`.
    Int {
        low: i64,
        high: i64,
    },
    /// Integers from `low` to `high`, with the texts of the scale and the offset that make numbers of them.
    Scaled {
        low: i64,
        high: i64,
        scale: &'a str,
        offset: &'a str,
    },
    /// Floating point numbers of 32 bits, each as the 8 hexadecimal digits of its word.
    F32,
    /// Floating point numbers of 64 bits, each as the 16 hexadecimal digits of its word.
    F64,
    /// Strings.
    #[default]
    Text,
}

/// A column of a text: its name, which the first row has, and what its cells are.
#[derive(Clone, Copy, Debug, PartialEq, Eq, Default)]
pub struct ColumnAsk<'a> {
    /// The name: an ASCII letter or `_`, and then letters, digits, `_`, `-` and `.`.
    pub name: &'a str,
    /// What the cells are.
    pub kind: ColumnKind<'a>,
}
