//! A board of totals: readers see the totals of a journal's first entries while it grows, and wait for nobody.
//!
//! The words of a table are the totals, and one more: how many entries the totals are of that the writer began last. A
//! journal only grows, so the count of entries tells which totals they are.
//! 1. The one writer says of how many entries totals come, writes all but the first, a word each, and then the first: how
//!    many entries' totals stand on the board. Each is one store.
//! 2. A reader reads how many stand, the others, and how many were begun. Where these are as many, the totals are whole.
//! 3. Where they aren't, the reader has met the writer, and looks again. After some looks it answers what it read last.
//!
//! Proved: the totals of a journal are as defined (`totals`), and the entries are those of each outcome, the looks and the leaves
//! (`adds_up`). In any threads: each `read` gives the totals of one list of entries, whole, which begins with all that
//! the pass has seen (`totals`, `seen`). It looks at the board, and where its last look doesn't meet the writer, it gives
//! what stood there as that look began (`reads`). A pass that is split off the writer has seen all that was published
//! (`pass`), and where two are joined, the longer of both (`longer`). `publish` leaves the totals of the whole journal on the
//! board (`published`). No call waits, and `new` alone takes memory.
//!
//! Only tested: that a reader in a thread of its own meets the writer seldom enough to see new totals (`test_board`).
#![tactic(auto)]

mod board;
mod pass;
mod publishing;
mod reading;
mod rule;
mod totals;
mod view;
mod writer;

pub use board::Board;
pub use pass::Pass;
pub use reading::MOST_LOOKS;
pub use totals::Totals;
pub use writer::Writer;
