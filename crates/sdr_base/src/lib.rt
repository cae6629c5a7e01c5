//! What all layers speak of: the traits of the outside, plain bytes and lists, refusals, reasons and
//! moves, and the cells and control words of a heap.
//!
//! 1. A trait of the outside tells its content or doesn't: a clause on content holds where it is told.
//! 2. Each has a count of faults that never falls, and a call answers its fault only where the count
//!    rose in that call.
//! 3. Want of memory (`NoMemory`) is the one answer that no clause ties to a cause.
//! 4. A heap stands on `Cells`: its bytes, read and written in a transaction that can be cancelled.
//!
//! Proved: `write_all` writes all, or a part from the front if the sink failed (`ok`, `err`, `cause`). Numbers,
//! leaders and start bits in a heap region are read and written as defined; a refused write changes nothing
//! (`same`). Blocks that tile a heap are at most one for 16 bytes (`Tiles-few`).
//!
//! Only tested: that these calls succeed with ample memory.
#![tactic(auto)]

mod account;
mod bytes;
mod cells;
pub mod control;
mod field;
mod gate;
mod has_heap;
mod idle_sink;
mod items;
mod kind;
pub mod layout;
mod leader;
pub mod limits;
mod line;
mod media;
mod medium;
mod memory_cells;
mod memory_sink;
mod memory_source;
mod moves;
mod objects;
mod refusal;
mod sink;
mod source;
mod start_bits;
mod stop;
mod stored;

pub use account::{Acct, Amounts};
pub use bytes::{Bytes, NoMemory, put_at};
pub use cells::Cells;
pub use field::{MOST_FIELDS, check_failed, expect_kind, set_word, take_bytes, take_words, word};
pub use gate::{Gate, NoGate};
pub use has_heap::HasHeap;
pub use idle_sink::IdleSink;
pub use items::Items;
pub use kind::{Addr, Kind, Space};
pub use leader::{Leader, read_leader, write_leader};
pub use line::{LEAST_LINES, LINE, MOST_LINES, START_BITS, WORD};
pub use media::{Media, MediaFault, NoMedia};
pub use medium::Medium;
pub use memory_cells::MemoryCells;
pub use memory_sink::MemorySink;
pub use memory_source::MemorySource;
pub use moves::Move;
pub use objects::Objects;
pub use refusal::{Reason, Refusal};
pub use sink::{Sink, SinkFault, write_all};
pub use source::{Source, SourceFault};
pub use start_bits::{clear_start_bit, read_start_bit, set_start_bit};
pub use stop::Stop;
pub use stored::{
    LastWord, read_last_word, read_leader_words, read_number, write_bare_leader, write_last_word,
    write_number,
};
