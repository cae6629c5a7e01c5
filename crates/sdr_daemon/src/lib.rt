//! Daemons and their scripts: what each does next, its turns at the lock, and when a journal keeps to the scripts.
//!
//! 1. A turn of a daemon is a line that is passed over, a transaction from its begin to its close, one look, or its leave. It draws at most
//!    one lock number, and adds at most one entry, of that number. A line that is passed over draws none. While a daemon holds the lock once
//!    it takes turns up to the one that draws the number, and passes over lines behind that.
//! 2. A leave closes the transaction that is open: that is one turn, and the leave's own entry comes in the next.
//! 3. A look at a ticket that waits is made again in the daemon's next turn. It adds an entry once.
//! 4. `ScriptedRun` is a core with the progress of its daemons. Its type keeps that the journal keeps to the lines that are done.
//!
//! Proved: the type of `ScriptedRun` keeps that each daemon's entries are those of its lines that are done (`IsScriptedRun`), in
//! whatever order daemons take turns. `coming` tells what a daemon does next by the core, the progress and the script (`coming_at`). A
//! turn does that (`DoesComing`): it passes over a line, and the core stays; or it draws a number; or memory was wanting for its line, and
//! then the daemon means to leave, so that its next turn draws one. It says what it adds to the journal, and that all other daemons stay as
//! they were (`turns`), whatever comes in it: a disk fault, no memory for a line or for what its name holds, a refused look, the last lock
//! number. `draw_number` draws just one number, and adds at most one entry, of that number and of the daemon at the place (`draws`). A
//! `ScriptedRun` is so a value of `sdr_turn`'s lock: its turns are the numbers that are done, and between two turns these are all that were
//! drawn (`done`). The daemon at a place has left just where an entry of that place is a leave (`left`). Once all have left, the journal
//! keeps to the scripts of the daemons that the script names (`keeps`), and no other daemon has an entry.
//!
//! Small journals are computed to keep to scripts (`proofs/BundleRow.antt`, `AwardedRow`, `StalledRow`, `EmptyRow`). Others are shown not
//! to: a daemon without a line that has an entry beside its leave (`InventedRow`), a daemon that begins and leaves as done with no other
//! entry (`DroppedRow`), a first transaction of other lines (`ExchangedRow`), a daemon of few lines that leaves as spent with no other
//! entry (`SpentRow`). Whether these journals are legal isn't said there.
//!
//! Not said: that each daemon comes to its turn, and that all leave after some turns.
#![tactic(auto)]

mod coming;
mod script_place;
mod scripted_run;
mod turn;

pub use coming::Coming;
pub use script_place::{ScriptPlace, Scripted};
pub use scripted_run::ScriptedRun;
