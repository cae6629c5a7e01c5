//! A turn lock over a value: whoever draws a number is served in the order of the numbers.
//!
//! Word 0 of a table counts the numbers drawn, word 1 the numbers done, and its one slot has the value. Threads step
//! with seats; each has its place among them, and knows what it drew, saw and added itself.
//! 1. A seat draws the next number, in one step that never waits.
//! 2. It waits until all numbers below its own are done, and takes the value out of the slot.
//! 3. It puts the value back, with at most one entry more, which has its number and its place. Then its number is done.
//! 4. Where all seats are together again the lock is closed: every number that was drawn is done, and was drawn by one
//!    seat.
//!
//! Proved: over any value that keeps a list of numbered entries with their makers (`Kept`), in any threads. The seats have the
//! places from 0 up, in order (`places`). A number that is drawn is above all that the seat drew before and saw done (`rises`,
//! `ahead`). `take` gives the value where just the numbers below this one are done, with all that the seat had seen and added in
//! front; the entries that were made at the seat's place are just those that it added (`found`). The front never falls (`rises`).
//! `give` adds at most one entry, of its number and its place (`adds`, `gave`, `made`). At `close` no two seats drew the same
//! number, and there were as many turns as numbers (`apart`, `turns`, `agree`).
//!
//! Only tested: that waiting threads come to their turn (`test_turn`); no clause says that a wait ends.
#![tactic(auto)]

mod ends;
mod held;
mod kept;
mod known;
mod number;
mod rule;
mod seat;
mod turn;
mod view;

pub use held::Held;
pub use kept::Kept;
pub use known::Known;
pub use number::Number;
pub use seat::Seat;
pub use turn::Turn;
