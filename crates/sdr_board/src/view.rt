use sdr_model::Journal;
use std::collections::LinkedList;

/// What the rule keeps of the writer or of a reader. No value of it is made.
pub struct View {
    /// It is the writer.
    pub writes: bool,
    /// How many entries the totals are of that the writer began last.
    pub begun: u64,
    /// The words of them that it has written, until all are.
    pub written: LinkedList<u64>,
    /// The entries whose totals it saw, or published.
    pub seen: Journal,
    /// Those that another reader has seen, which was joined into this one.
    pub told: Journal,
    /// Those whose totals stood on the board as it last began to look.
    pub stood: Journal,
    /// How often it looked.
    pub looks: u64,
    /// The writer was writing in its last look.
    pub met: bool,
    /// Of how many entries totals were begun at its last step.
    pub front: u64,
}
