//! The machine at the lock, on any ground: a world in memory, or a heap on a disk.
//!
//! 1. A state is a world, the ground that it stands on, and what the open transaction has asked of it. A step is defined
//!    once for all grounds: with no heap blocks have the next addresses; on a heap moves fit its pools, and want of log
//!    room comes only where the transaction may have touched so many lines.
//! 2. Daemons draw lock numbers from 1 up, and the least that isn't done is served. `Nesting` is a transaction's depth,
//!    doom and close; `Roll` the daemons and the numbers that they hold. Neither takes memory once it is made.
//! 3. `Lock` makes each event of a daemon a step of the machine (`MachineStep`), looks, leaves and disk faults among them,
//!    on any ground that is a `Backing`. The ground asks media within its call. What a ground stands for is a relation: whatever it stood for before a call, it stands
//!    for something now, and between the two lies the step.
//! 4. A crash during an event leaves the state before the open transaction, or during the outermost end of one that isn't
//!    doomed the state that it keeps. After a disk fault each event is answered `Failed`.
//! 5. A core run keeps a journal of what was said under each number; a journal is legal where each entry goes on from the
//!    state that those before it have left. These are definitions here, for the crates above.
//!
//! Proved: `Lock::event`, over any ground: each event of a daemon is a step of the machine (`step`). A disk fault
//! comes only where the disk's count rose. Media are asked at most once for each extent of which the event needs bytes (`EventAsks`). A crash leaves the state before the open transaction, or, in the end
//! of an undoomed one, that or the new state. Out of memory leaves all as it was (`err`). The lock makes no call and
//! asks for no commit in a transaction in which a call was stopped, and looks only where none is open (`going`, `idle` of
//! `Backing`). `Nesting` and `Roll` are exactly as defined.
#![tactic(auto)]

mod backing;
mod came;
mod daemon;
mod failing;
mod halt;
mod has_ground;
mod lock;
mod nesting;
mod roll;
mod seeing;
mod settling;
mod shows;
mod tells;

pub use backing::Backing;
pub use came::Came;
pub use daemon::{Daemon, Holding};
pub use halt::{Fault, Halt};
pub use has_ground::HasGround;
pub use lock::Lock;
pub use nesting::{Nesting, refused};
pub use roll::Roll;
pub use shows::Shows;
pub use tells::{Room, Tells};
