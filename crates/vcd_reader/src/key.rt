//! Keys of texts.

ghost use Rattle.std.specs.Prelude.{◌≡◌};
ghost use Rattle.vcd_reader.specs.Keys.{key_from};

const FACTOR: u64 = 1099511628211;

/// A key of a text, after a text that has a key.
pub(crate) fn key_behind(front: u64, text: &[u8]) -> u64
    ensures { result ≡ key_from front text.now }
{
    let mut key = front;
    for byte in text {
        key = key.wrapping_mul(FACTOR).wrapping_add(u64::from(*byte));
    }
    key
}
