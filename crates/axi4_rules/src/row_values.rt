//! What fills the rows of the table.

use crate::port::Port;

/// A port; a channel, or nothing; an item, as a payload signal or a number, or nothing.
#[derive(Clone, Copy)]
pub(crate) struct Filling<'t> {
    pub port: &'t Port,
    pub channel: &'t str,
    pub item: &'t str,
}
