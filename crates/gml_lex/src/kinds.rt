/// The kinds of token, as the GML report has them, here by this project's profile.
#[derive(Clone, Copy, Debug, PartialEq, Eq)]
pub enum TokenKind {
    /// A letter, then letters, digits and `_`.
    Key,
    /// An optional sign, then digits.
    Integer,
    /// Digits with a point, an exponent or both: `.5`, `5.` and `1e5`.
    Real,
    /// From a quote to the next quote, both in it.
    Text,
    /// `[`, which begins a list.
    Left,
    /// `]`, which ends a list.
    Right,
}

/// A token and its place in the text.
#[derive(Clone, Copy, Debug, PartialEq, Eq)]
pub struct Token {
    /// What it is.
    pub kind: TokenKind,
    /// The place of its first byte, counted from 0.
    pub start: u32,
    /// The place after its last byte.
    pub end: u32,
}
