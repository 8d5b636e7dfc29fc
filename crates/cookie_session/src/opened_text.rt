//! A text that a key of the ring opened.

/// A text that a key of the ring opened.
#[derive(Drop)]
pub struct OpenedText {
    /// The value that was sealed.
    pub value: String,
    /// The place of the key in the ring: 0 is the newest.
    pub place: usize,
}
