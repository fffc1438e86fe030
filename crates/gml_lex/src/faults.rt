/// From this place on the bytes are neither blank, comment nor token.
#[derive(Clone, Copy, Debug, PartialEq, Eq)]
pub struct LexFault {
    /// The place, counted in bytes from 0: that of an opening quote, of a word's first byte, or of a byte that begins nothing.
    pub place: u32,
}
