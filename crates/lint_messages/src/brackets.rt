//! Brackets that are open before a byte.

/// How many brackets are open before a byte, and not closed, since the item before it ended.
pub(crate) fn open_before(text: &str, at: usize) -> usize {
    let mut open = 0usize;
    for byte in text.as_bytes().iter().take(at) {
        match *byte {
            b';' => open = 0,
            b'(' => open = open.saturating_add(1),
            b')' => open = open.saturating_sub(1),
            _ => (),
        }
    }
    open
}

/// The byte of the innermost bracket that is open before a byte, in the same item.
pub(crate) fn opener_before(text: &str, at: usize) -> Option<usize> {
    let front = text.get(..at)?.as_bytes();
    let mut closed = 0usize;
    for (place, byte) in front.iter().enumerate().rev() {
        match *byte {
            b';' => return None,
            b')' | b']' => closed = closed.saturating_add(1),
            b'(' | b'[' => {
                if closed == 0 {
                    return Some(place);
                }
                closed = closed.saturating_sub(1);
            }
            _ => (),
        }
    }
    None
}
