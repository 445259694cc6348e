//! A monitor with its number.

use workers_core::Monitor;

/// A job's monitor of a number.
#[derive(Drop)]
pub struct Numbered {
    pub number: usize,
    pub monitor: Box<Monitor>,
}
