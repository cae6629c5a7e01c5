// What waits behind a run of calls, and what each call hands on to the next one.
ghost use Rattle.std.specs.Prelude.{◌≡◌, ◌++◌, ◌+◌, ◌≤◌, ◌∷◌, [], ℕ, List, filter};
ghost use Rattle.sdr_base.specs.Objects.{Heap};
ghost use Rattle.sdr_base.specs.declared.account.Acct.{Acct};
ghost use Rattle.zco_acct.specs.Kept.{SomeQueue};
ghost use Rattle.zco_obj.specs.Making.{CreatesObject};
ghost use Rattle.bp_queue.specs.Bundles.{HasNothing, SomeBundles, with_taken};
ghost use Rattle.bp_queue.specs.Calls.{CreatesQueues};
ghost use Rattle.bp_queue.specs.Expiring.{ExpiresAll, SomeOverdue};
ghost use Rattle.bp_queue.specs.Kept.{SomeQueues};
ghost use Rattle.bp_queue.specs.Putting.{PutsLast};
ghost use Rattle.bp_queue.specs.States.{Waiting};
ghost use Rattle.bp_queue.specs.Taking.{TakesFirst};
ghost use Rattle.bp_queue.specs.declared.queues.Queues.{Queues};
ghost use Rattle.bp_queue.specs.Runs.{QueueCall, RunsQueue, put_and_stay, stays};
ghost use Rattle.bp_queue.specs.States.{State};

/// A law: behind any calls that weren't stopped, of those that were put just those wait, in the order in
/// which they were put, that no call behind that takes out: none took their object, and they were overdue
/// at no expiry. So it is too of those that waited before. It does nothing.
pub fn queues_keep()
    ensures new { (calls : List QueueCall) (s : State) → RunsQueue [] calls s → s ≡ put_and_stay calls }
    ensures all { (calls : List QueueCall) (before s : State) → RunsQueue before calls s →
        s ≡ filter (stays calls) before ++ put_and_stay calls }
{}

/// A law: where a heap has no block and no ticket, the calls on queues and the making of objects hand on
/// what the next one needs, whichever it is. It does nothing.
pub fn bundles_keep()
    // What each call leaves.
    ensures created { (q : Queues) (room : ℕ) (old new : Heap) → HasNothing old
        → room + 4 ≤ old.spare → CreatesQueues q old new → SomeBundles new q [] room }
    ensures made { (q : Queues) (loose : List ℕ) (room : ℕ) (acct : Acct) (object : ℕ)
        (old new : Heap) → SomeBundles old q loose (room + 5)
        → CreatesObject acct 0 object old new → SomeBundles new q (object ∷ loose) room }
    ensures put { (q : Queues) (before behind : List ℕ) (room : ℕ) (w : Waiting) (old new : Heap)
        → SomeBundles old q (before ++ w.object ∷ behind) (room + 3) → PutsLast q w old new
        → SomeBundles new q (before ++ behind) room }
    ensures taken { (q : Queues) (loose : List ℕ) (room object : ℕ) (old new : Heap)
        → SomeBundles old q loose (room + 3) → TakesFirst q old new object
        → SomeBundles new q (with_taken object loose) room }
    ensures expired { (q : Queues) (loose : List ℕ) (room now count : ℕ) (old new : Heap)
        → SomeBundles old q loose room → ExpiresAll q now old new count
        → SomeBundles new q loose room }

    // What each call needs.
    ensures queues { (q : Queues) (loose : List ℕ) (room : ℕ) (heap : Heap)
        → SomeBundles heap q loose room → SomeQueues heap.blocks q }
    ensures tickets { (q : Queues) (loose : List ℕ) (room : ℕ) (heap : Heap) (acct : Acct)
        → SomeBundles heap q loose room → SomeQueue heap acct }
    ensures overdue { (q : Queues) (loose : List ℕ) (room now : ℕ) (heap : Heap)
        → SomeBundles heap q loose room → SomeOverdue heap q now }
    ensures spare { (q : Queues) (loose : List ℕ) (room : ℕ) (heap : Heap)
        → SomeBundles heap q loose room → room ≤ heap.spare }
{}
