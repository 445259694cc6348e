//! Sums of bytes.

/// The sum of no byte, and the factor (FNV-1a of 64 bits).
const START: u64 = 0xcbf2_9ce4_8422_2325;

const PRIME: u64 = 0x0100_0000_01b3;

/// The sum of bytes.
pub(crate) fn sum_of(bytes: &[u8]) -> u64 {
    let mut sum = START;
    for byte in bytes {
        sum = (sum ^ u64::from(*byte)).wrapping_mul(PRIME);
    }
    sum
}
