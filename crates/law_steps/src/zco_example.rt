// A small world with sources, an object and tickets, on which the laws are tried.
ghost use Rattle.std.specs.Prelude.{◌≡◌, ◌≤◌, ℕ, [], ◌∷◌};
ghost use Rattle.sdr_base.specs.declared.account.Acct.{Acct};
ghost use Rattle.sdr_base.specs.declared.account.Acct.TheVariants as accts;
ghost use Rattle.sdr_base.specs.declared.kind.Space.TheVariants as spaces;
ghost use Rattle.sdr_base.specs.declared.moves.Move.TheVariants.{Took};
ghost use Rattle.law_steps.specs.Charged.{charged, released};
ghost use Rattle.law_steps.specs.Fresh.{AreFresh};
ghost use Rattle.law_steps.specs.OnceExample.{both_things, cloned_things, fewer_things, first_things, last_things, world_of};
ghost use Rattle.law_steps.specs.ZcoExample.{grown_world, small_world};
ghost use Rattle.sdr_model.specs.Accounts.{most_amount};
ghost use Rattle.sdr_model.specs.Blocks.{addresses_of, blocks_of};
ghost use Rattle.sdr_model.specs.Charges.{occupancy};
ghost use Rattle.sdr_model.specs.Step.{Step};
ghost use Rattle.sdr_model.specs.Valid.{FitTogether, IsBarred, IsValid, KeepQueues};
ghost use Rattle.sdr_model.specs.World.{fresh_world};
ghost use Rattle.sdr_model.specs.declared.answer.Reply.TheVariants as replies;
ghost use Rattle.sdr_model.specs.declared.call.Call.TheVariants as calls;

/// What the laws of sources, objects and queues ask for is met: by a world with sources of a file
/// and of a raw object, an object and two tickets, of which one waits, and by a step in which the
/// object gains an extent under the other. It does nothing.
pub fn small_world_meets_the_laws()
    ensures valid { IsValid small_world }
    ensures fits { FitTogether small_world }
    ensures queues { KeepQueues small_world.accounts }
    ensures barred { (acct : Acct) → IsBarred small_world acct }
    ensures fresh { AreFresh (addresses_of (blocks_of small_world)) (Took 32 80 ∷ []) }
    ensures grows { Step small_world (calls.AppendExtent 32 1 8 0 4) (Took 32 80 ∷ []) grown_world
        replies.Done }
{}

/// What the laws ask for is met by a world without things, whose accounts have this maximum of heap
/// space. It does nothing.
pub fn fresh_world_meets_the_laws()
    ensures fits { (heap : ℕ) → FitTogether (fresh_world heap) }
    ensures queues { (heap : ℕ) → heap ≤ most_amount → KeepQueues (fresh_world heap).accounts }
    ensures barred { (heap : ℕ) (acct : Acct) → IsBarred (fresh_world heap) acct }
{}

/// A file of four bytes is charged to an account once, however many of its objects name it: an
/// outbound object of one byte of it takes four bytes of file space, and its clone none. An inbound
/// object charges the other account. The first outbound object that goes releases no file space, and
/// the last one does. It does nothing.
pub fn a_source_is_charged_once()
    ensures first { occupancy (world_of first_things) accts.Outbound spaces.File ≡ 4 }
    ensures first_heap { occupancy (world_of first_things) accts.Outbound spaces.Heap ≡ 104 }
    ensures clone_charges { charged (world_of first_things) (calls.ClonePart 16 0 0 1) accts.Outbound
        spaces.File ≡ 0 }
    ensures cloned { occupancy (world_of cloned_things) accts.Outbound spaces.File ≡ 4 }
    ensures both_out { occupancy (world_of both_things) accts.Outbound spaces.File ≡ 4 }
    ensures both_in { occupancy (world_of both_things) accts.Inbound spaces.File ≡ 4 }
    ensures first_gone { released (world_of both_things) (calls.Destroy 16) accts.Outbound spaces.File
        ≡ 0 }
    ensures clone_gone { released (world_of fewer_things) (calls.Destroy 32) accts.Outbound
        spaces.File ≡ 4 }
    ensures last_out { occupancy (world_of last_things) accts.Outbound spaces.File ≡ 0 }
    ensures last_in { occupancy (world_of last_things) accts.Inbound spaces.File ≡ 4 }
{}
