// A world in memory as the ground of a lock.
ghost use Rattle.std.specs.Prelude.{◌≡◌};
ghost use Rattle.sdr_model.specs.Accounts.{pending_among};
ghost use Rattle.sdr_machine.specs.Serving.{shown_among};

use crate::answering::answer;
use mem_world::DraftWorld;
use sdr_base::Media;
use sdr_machine::{Backing, Fault, Halt, HasGround, Shows};
use sdr_model::{Accounts, Call, Reply};
use std::alloc::Global;
use std::marker::Model;

/// So many calls can be made on a world in memory. By so many no object has more pieces, and no more than 2^46 blocks are taken.
const MOST_CALLS: u64 = 4_194_304;

/// A world in memory with the files and items that its sources name, where the k-th block that a call takes has address 8 k. It has
/// room for 2^22 calls.
#[derive(Drop)]
pub struct MemoryGround<M: Media> {
    world: DraftWorld,
    media: M,
    /// How many calls were made.
    calls: u64,
    alloc: Global,
}

impl<M: Media> Model for MemoryGround<M> {
    ghost use Rattle.mem_machine.specs.CodedRun.{coded_in_memory};
    ghost use Rattle.mem_machine.specs.Memory.{InMemory, IsReached};

    ghost Value = { InMemory M };

    ghost coded = { coded_in_memory M.code };

    ghost view = { λ s. record {
      worlds = record { begun = s.world.begun; now = s.world.now };
      media = s.media;
    } };

    ghost invariant = { λ s. IsReached s.calls (record { begun = s.world.begun; now = s.world.now }) };
}

impl<M: Media> HasGround for MemoryGround<M> {
    ghost use Rattle.std.specs.Prelude.{⊤};
    ghost use Rattle.mem_machine.specs.Answering.{lapses_of};
    ghost use Rattle.mem_machine.specs.Memory.{StandsBare};

    ghost stands = { λ m v. StandsBare m.worlds v };

    ghost moment = { λ _. 0 };

    ghost faults = { λ _. 0 };

    ghost lapses = { λ m. lapses_of M.Media m.media };

    ghost asks = { λ m. M.asks m.media };

    ghost told = { λ m. M.told m.media };

    ghost lasts = { λ _ _. ⊤ };

    ghost sound = { λ _. ⊤ };

    ghost going = { λ _. ⊤ };

    ghost idle = { λ _. ⊤ };

    ghost left = { λ _ _ _. ⊥ };

    ghost opens = { λ _ _. ⊥ };

    ghost crash_now = { λ t v image at left. absurd left };

    ghost lasts_less = { λ t n lasts. lasts };

    ghost idle_going = { λ t idle. tt };

    ghost going_sound = { λ t going. tt };
}

impl<M: Media> MemoryGround<M> {
    ghost use Rattle.sdr_model.specs.World.{empty_world};

    /// A world without things, with these files and items.
    pub fn new(alloc: Global, media: M) -> MemoryGround<M>
        ensures { result ≡ record { worlds = record { begun = empty_world; now = empty_world }; media = media } }
    {
        MemoryGround {
            world: DraftWorld::new(alloc),
            media,
            calls: 0,
            alloc,
        }
    }

    /// The bytes that it shows: those of the last answered call of the open transaction.
    pub fn shown(&self) -> &[u8]
        ensures { result.now ≡ self.now.worlds.now.shown }
    {
        self.world.shown()
    }

    /// The files and items. The world is let go.
    pub fn into_media(self) -> M
        ensures { result ≡ self.media }
    {
        let MemoryGround {
            world: _,
            media,
            calls: _,
            alloc: _,
        } = self;
        media
    }
}

impl<M: Media> Backing for MemoryGround<M> {
    fn moment(&self) -> u64 {
        0
    }

    fn call(&mut self, call: &Call) -> Result<Reply, Halt> {
        if self.calls >= MOST_CALLS {
            return Err(Halt::Memory);
        }
        let Ok(reply) = answer(self.alloc, &mut self.world, &mut self.media, call) else {
            return Err(Halt::Memory);
        };
        self.calls += 1;
        Ok(reply)
    }

    fn keep(&mut self) -> Result<(), Halt> {
        self.world.keep();
        Ok(())
    }

    fn roll_back(&mut self) -> Result<(), Fault> {
        self.world.roll_back();
        Ok(())
    }

    fn look(&mut self, ticket: u64) -> Result<Option<bool>, Fault> {
        Ok(granted(self.world.accounts_begun(), ticket))
    }
}

impl<M: Media> Shows for MemoryGround<M> {
    fn shown(&self) -> &[u8] {
        MemoryGround::shown(self)
    }
}

// Whether the ticket is there, and granted.
fn granted(accounts: &Accounts, ticket: u64) -> Option<bool>
    ensures { result ≡ shown_among (pending_among accounts.now ticket) }
{
    match accounts.pending(ticket) {
        Some(pending) => Some(pending.ticket.granted),
        None => None,
    }
}
