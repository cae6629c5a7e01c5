// What an audit of owners finds wrong.

/// Where something is wrong.
#[derive(Clone, Copy)]
pub struct Wrong {
    /// The place in the heap region: that of a control word, or a block's address.
    pub place: u64,
}
