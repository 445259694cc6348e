//! An AXI4 port.

ghost use Rattle.std.specs.Prelude.{IsTrue};
ghost use Rattle.axi4_rules.specs.Ports.{is_sized, is_named, are_ids};

use crate::case::Case;

/// A port as a line of a port file says it.
#[derive(Drop)]
pub struct Port {
    /// A word: the front of the names of its rules and counters.
    pub name: String,
    /// The path of its clock.
    pub clock: String,
    /// The path of its reset, which is active low.
    pub reset: String,
    /// The front of the paths of its signals.
    pub prefix: String,
    /// The bits of an address, 12 to 64.
    pub addr: u32,
    /// The bits of a beat: 8, 16, 32, 64 or 128.
    pub data_width: u32,
    /// The bits of an ID, 1 to 16.
    pub id: u32,
    /// The most ticks that a channel may wait, up to 64; 0 for no bound.
    pub wait: u32,
    /// The case of its signals' names, after the prefix.
    pub case: Case,
    /// Up to 16 different IDs that are counted one by one.
    pub watch: Vec<u32>,
    pub ghost sized: { IsTrue (is_sized addr data_width id wait) },
    pub ghost named: { IsTrue (is_named name clock reset prefix) },
    pub ghost watching: { IsTrue (are_ids id watch.items) },
}
