//! Notes.

/// A note on what a text accepts and a reader may not mean: its number, the byte of the text where
/// it stands, and what is told.
#[derive(Drop)]
pub struct Note {
    /// 1 to 9.
    pub number: u8,
    pub at: usize,
    pub message: String,
}
