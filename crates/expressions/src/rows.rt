//! What is known of a run.

use crate::table::Table;

/// The sampled signals and the counters, each with a row for each tick.
#[derive(Drop)]
pub struct Rows {
    pub signals: Table<u128>,
    pub counters: Table<u128>,
}
