// By what the elements of a list are ordered.

/// How two keys of a list comparison are compared. A key is the first at most 64 bytes of the raw
/// object that an element's data names; other data has the empty key.
#[derive(Clone, Copy)]
pub enum Keys {
    /// Byte by byte, a proper prefix first.
    ByBytes,
    /// By their length alone.
    ByLength,
}
