// The links of an account's queue.
ghost use Rattle.std.specs.Prelude.{◌≡◌, ◌≢◌, IfErr, OnOk};
ghost use Rattle.sdr_base.specs.Blocks.{UsesRange};
ghost use Rattle.sdr_base.specs.Moves.{KeepsSome};
ghost use Rattle.sdr_base.specs.Objects.{OnlyUnmoved};
ghost use Rattle.sdr_base.specs.Works.{Spends};
ghost use Rattle.zco_space.specs.Links.{LinksLast, LinksNext};

use sdr_base::layout::ticket as words;
use sdr_base::{Acct, Addr, Objects, Stop, check_failed, set_word};
use zco_acct::{first_word, last_word};

// Links `next` behind the ticket `prev`, or as the first where that is 0.
pub fn link_next<O: Objects>(o: &mut O, acct: Acct, prev: Addr, next: Addr) -> Result<(), Stop>
    requires kept { KeepsSome (O.keeps o.old) }
    requires prev { prev ≢ 0 → UsesRange (O.heap o.old).blocks prev 0 96 }
    ensures linked { OnOk result (LinksNext acct prev next (O.heap o.old) (O.heap o.new)) }
    ensures refused { IfErr result (OnlyUnmoved (O.heap o.old) (O.heap o.new)) }
    ensures works { Spends O.HasHeap 2 o.old o.new result }
{
    if prev == 0 {
        o.set_root(first_word(acct), next)
    } else {
        set_word(o, prev, words::NEXT, next)
    }
}

// Where nothing follows the ticket `prev`, it is the last.
pub fn link_last<O: Objects>(o: &mut O, acct: Acct, next: Addr, prev: Addr) -> Result<(), Stop>
    requires kept { KeepsSome (O.keeps o.old) }
    ensures linked { OnOk result (LinksLast acct next prev (O.heap o.old) (O.heap o.new)) }
    ensures refused { IfErr result (OnlyUnmoved (O.heap o.old) (O.heap o.new)) }
    ensures works { Spends O.HasHeap 1 o.old o.new result }
{
    if next == 0 {
        o.set_root(last_word(acct), prev)
    } else {
        check_failed(o)
    }
}
