//! The signals of a suite.

ghost use Rattle.std.specs.Prelude.{◌≤◌};

/// A signal: its path, and its width, 1 to 128.
#[derive(Drop)]
pub struct Signal {
    pub path: String,
    pub width: u8,
    pub ghost some_bits: { 1 ≤ width },
    pub ghost at_most_128: { width ≤ 128 },
}
