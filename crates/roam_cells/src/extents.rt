//! Extents: how far an erasure reaches.

/// The extent of ED and EL: from the cursor to the end, from the start to the cursor, or all; the cursor's place is included.
#[derive(Clone, Copy)]
pub enum Extent {
    ToEnd,
    ToStart,
    All,
}
