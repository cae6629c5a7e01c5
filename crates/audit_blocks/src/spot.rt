// What begins with a word of a heap region.
ghost use Rattle.std.specs.Prelude.{◌≡◌, get_or};
ghost use Rattle.audit_blocks.specs.Spots.{is_free_spot, is_told_used};

/// What begins with a word of a heap region.
#[derive(Clone, Copy)]
pub enum Spot {
    /// No block does.
    Nothing,
    /// A free block.
    Free,
    /// A block in use.
    Used,
}

/// Whether a word is told that a block in use begins with it. Behind the region none does.
pub fn is_used(spots: &[Spot], word: u64) -> bool
    ensures { result ≡ is_told_used spots.now word }
{
    matches!(spots.get(word as usize), Some(Spot::Used))
}

/// Whether a word is told that a free block begins with it. Behind the region none does.
pub fn is_free(spots: &[Spot], word: u64) -> bool
    ensures { result ≡ is_free_spot (get_or spots.now word Spot.Nothing) }
{
    matches!(spots.get(word as usize), Some(Spot::Free))
}
