//! Signals that a program samples.

/// A signal: its path, and its width, 1 to 128.
#[derive(Drop, Debug)]
pub struct Slot {
    pub width: u8,
    pub path: String,
}
