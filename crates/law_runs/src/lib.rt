//! Laws of core runs and of the journals that they keep, on any ground. Each law is the contract of a function that does
//! nothing.
//!
//! 1. The journal of a core run is legal, and the state before the open transaction is the one after all entries
//!    (`journals_are_legal`). An entry that an event adds may stand behind those before it (`entries_may_stand`).
//! 2. Lock numbers rise (`numbers_rise`). Each transaction begins with its first begin and ends with its close
//!    (`transactions_are_framed`).
//! 3. The roll agrees with the journal: who waits for a ticket, who has left, and whether all have stalled
//!    (`rolls_agree_with_journals`).
//! 4. After the leaves at the end of a schedule every daemon has left (`all_leave_at_the_end`).
//! 5. A core run decides its answers, its journal and its state, chance aside (`runs_decide`).
//! 6. No call is answered as the lock and the nesting answer (`calls_answer_for_themselves`).
//! 7. Small runs, event by event: an inner cancel dooms, a second daemon is suspended, all have stalled, transactions
//!    are nested to depth 64, and a disk fault ends a run.
//!
//! Proved: laws of every run: its journal is legal (`journals_are_legal`), lock numbers rise (`numbers_rise`),
//! each transaction goes from its begin to its close (`transactions_are_framed`), all is decided but chance
//! (`runs_decide`), and after the leaves at the end each daemon has left (`all_leave_at_the_end`).
#![tactic(auto)]

mod decided;
mod journals;
mod leaving;
mod replies;
mod rows;
mod stalled;

pub use decided::runs_decide;
pub use journals::{entries_may_stand, journals_are_legal, numbers_rise, transactions_are_framed};
pub use leaving::all_leave_at_the_end;
pub use replies::calls_answer_for_themselves;
pub use rows::{
    a_second_daemon_is_suspended, all_have_stalled, an_inner_cancel_dooms, depth_sixty_four,
    the_first_sync_fails,
};
pub use stalled::rolls_agree_with_journals;
