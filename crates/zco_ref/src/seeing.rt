// What a source's block says of it.
ghost use Rattle.std.specs.Prelude.{◌≡◌, ◌+◌, ◌-◌, ◌^◌, min, IfOk, IfErr};
ghost use Rattle.sdr_base.specs.Moves.{KeepsSome};
ghost use Rattle.sdr_base.specs.Objects.{OnlyFault};
ghost use Rattle.sdr_base.specs.Works.{Looks};
ghost use Rattle.zco_ref.specs.Going.{goes_by, is_owner};
ghost use Rattle.zco_ref.specs.Kept.{SomeSource};
ghost use Rattle.zco_ref.specs.Seeing.{IsMediumOf, SeesSource};

use sdr_base::layout::source as words;
use sdr_base::{Addr, Medium, Objects, Stop, word};

// What a source's block says of it, beside its length and its path.
#[derive(Clone, Copy)]
pub struct Seen {
    pub medium: Medium,
    // Whether it goes with its last extent, and no extent may be added.
    pub flagged: bool,
    // How many extents of each account name it.
    pub inbound: u64,
    pub outbound: u64,
    // The item, or the raw object's address; 0 for a file.
    pub subject: Addr,
}

impl Seen {
    // Whether it has taken over a raw object.
    pub fn is_owner(self) -> bool
        ensures { result ≡ is_owner self.medium }
    {
        matches!(self.medium, Medium::Heap)
    }

    // Whether it goes where an extent less names it: that was the last one.
    pub fn goes_next(self) -> bool
        ensures { result ≡ goes_by self.medium self.flagged (self.inbound + self.outbound) }
    {
        (self.is_owner() || self.flagged) && self.uses() == 1
    }

    // How many extents name it, or the greatest number where they are more.
    pub fn uses(self) -> u64
        ensures { result ≡ min (self.inbound + self.outbound) (2 ^ 64 - 1) }
    {
        self.inbound.saturating_add(self.outbound)
    }
}

// What the block of a source says.
pub fn see<O: Objects>(o: &mut O, source: Addr) -> Result<Seen, Stop>
    requires kept { KeepsSome (O.keeps o.old) }
    requires source { SomeSource ((O.heap o.old).blocks source) }
    ensures seen { IfOk result (SeesSource ((O.heap o.old).blocks source)) }
    ensures refused { IfErr result OnlyFault }
    ensures looks { Looks O.HasHeap o.old o.new result }
{
    let medium = word(o, source, words::MEDIUM)?;
    let flag = word(o, source, words::FLAG)?;
    let inbound = word(o, source, words::INBOUND)?;
    let outbound = word(o, source, words::OUTBOUND)?;
    let subject = word(o, source, words::SUBJECT)?;
    Ok(Seen {
        medium: medium_of(medium),
        flagged: flag == 1,
        inbound,
        outbound,
        subject,
    })
}

/// The medium of a number in a source's block.
pub fn medium_of(number: u64) -> Medium
    ensures { IsMediumOf number result }
{
    match number {
        1 => Medium::File,
        2 => Medium::Bulk,
        3 => Medium::Heap,
        _ => Medium::Obj,
    }
}
