//! A load that runs on the heap of a disk, and what stands there behind it, summed up.
//!
//! 1. The steps of the load are made round by round and played as those of a script are. Nothing is printed of them.
//! 2. Behind the last one the list that the name `load` finds is read by calls, element by element. The whole world is not read a
//!    second time: each call is answered by the heap as it is held in memory, and none of them makes a call of the disk.
//! 3. It is read only where the disk failed in no entry and memory sufficed. The memory that reading takes is taken before the first step.
//! 4. The summary counts the entries of the journal, and the elements and bytes of that list.
//!
//! Proved: `load`: the journal is the one of a run of the generated script on the heap that was opened, it is legal, and what a crash leaves is
//! told by it, also of the disk that is given back behind the reading (`LoadsOn`). Where the disk failed in no entry and memory sufficed, what is given back is the
//! summary of the journal and of the state after all of it (`EndsSo`, `SumsUp`). `summary_line` is its text.
//!
//! Only tested: that a load is summed up where memory is ample (`tests/cases`), and what it comes to where its disk fails at each call in turn
//! (`test_shell`).
#![tactic(auto)]

mod asking;
mod loading;
mod reading;
mod summary;

pub use loading::{LoadEnd, Loaded, load};
use reading::read_list;
pub use summary::{ListRead, Summary, summary_line};
