//! The file of the smallest program.

/// In version 1, `r: .. top.x |-> top.y` at `top.clk`: the samples of both become atoms 0 and 1,
/// and each section has a block that accepts where its atom is 1.
pub const PROGRAM: [u8; 114] = [
    0x53, 0x56, 0x41, 0x4d, 1, // 0: the magic number, the version
    0, 0, 0, 1, 0, 1, 0, 1, 0, 0, 0, 14, 255, 2, // 5: the limits, no disabling atom, two atoms
    0, 1, b'r', 0, 7, b't', b'o', b'p', b'.', b'c', b'l', b'k', // 19: the name, the clock
    0, 2, 1, 0, 5, b't', b'o', b'p', b'.', b'x', // 31: two signals, the first
    1, 0, 5, b't', b'o', b'p', b'.', b'y', 0, 0, // 41: the second, no counters
    0, 5, 0x02, 0, 1, 0x32, 0, 0x02, 0, 2, 0x32, 1, 0x34, // 51: the sample code
    0, 0, 0, 0, 0, 0, 0, 0, 0, 0, 0, 0, 0, 0, 0, 1, // 64: position 0 starts
    1, 0, 3, 0x40, 0, 0, 2, 0x42, 0x43, // 80: its block
    0, 0, 0, 0, 0, 0, 0, 0, 0, 0, 0, 0, 0, 0, 0, 1, // 89: the same of the consequent
    1, 0, 3, 0x40, 1, 0, 2, 0x42, 0x43, // 105: which reads atom 1
];
