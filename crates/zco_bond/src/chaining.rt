// Chains of headers and trailers that become extents.
ghost use Rattle.std.specs.Prelude.{◌≡◌, ◌≤◌, List, sum_by, IfErr, IfOk};
ghost use Rattle.sdr_base.specs.Moves.{KeepsSome};
ghost use Rattle.sdr_base.specs.Wanting.{OnlyWanting};
ghost use Rattle.sdr_base.specs.Works.{Spends};
ghost use Rattle.sdr_base.specs.ZcoObjects.{CapsuleRow, ExtentRow};
ghost use Rattle.zco_bond.specs.Chaining.{BondsChain, ChainsAt, ChainStops, SomeChains, bond_lines};

use crate::gap::{Chain, Gap};
use crate::placing::bond_text;
use crate::text::Text;
use sdr_base::{Acct, Addr, Objects, Stop, check_failed};
use zco_obj::{TOO_MANY_PARTS, see_capsule};

// Makes extents at a place of the headers or trailers of a chain, one after another, and gives
// those back. Where there is none, the extents on either side are what is answered. It is linear
// in the chain.
#[tactic(auto, using(sdr_base::proofs::LeavingLemmas::wanting))]
pub fn bond_chain<O: Objects>(o: &mut O, acct: Acct, first: Addr, gap: Gap) -> Result<Chain, Stop>
    requires kept { KeepsSome (O.keeps o.old) }
    requires chains { SomeChains (O.heap o.old) first gap }
    ensures bonded { IfOk result (BondsChain acct first gap (O.heap o.old) (O.heap o.new)) }
    ensures refused { IfErr result (ChainStops first gap (O.heap o.old) (O.heap o.new)) }
    ensures wants { IfErr result OnlyWanting }
    ensures works { (front : List ExtentRow) (rows : List CapsuleRow) →
        ChainsAt (O.heap o.old).blocks first gap front rows →
        Spends O.HasHeap (sum_by bond_lines rows) o.old o.new result }
{
    check_failed(o)?;
    let mut chain = Chain {
        first: gap.next,
        last: gap.previous,
    };
    let mut capsule = first;
    for i in 0..TOO_MANY_PARTS {
        if capsule == 0 {
            break;
        }
        let seen = see_capsule(o, capsule)?;
        let text = Text {
            of: capsule,
            bytes: seen.bytes,
        };
        let place = Gap {
            previous: chain.last,
            next: gap.next,
        };
        let extent = bond_text(o, acct, text, place)?;
        chain = lengthened(chain, i, extent);
        capsule = seen.next;
    }
    Ok(chain)
}

// A chain of so many extents, with one more at its end.
fn lengthened(chain: Chain, count: u64, extent: Addr) -> Chain
    ensures last { result.last ≡ extent }
    ensures begun { count ≡ 0 → result.first ≡ extent }
    ensures kept { (count ≡ 0 → ⊥) → result.first ≡ chain.first }
{
    Chain {
        first: if count == 0 { extent } else { chain.first },
        last: extent,
    }
}
