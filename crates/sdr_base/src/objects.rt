// The blocks of a heap, as the collections see them.
ghost use Rattle.std.specs.Prelude.{◌≡◌, ◌+◌, ◌*◌, ◌/◌, ◌≤◌, ◌<◌, ℕ, length, IfOk, IfErr, OnOk};
ghost use Rattle.sdr_base.specs.Blocks.{Uses, UsesRange, HasBytes, kind_length};
ghost use Rattle.sdr_base.specs.Cells.{TouchesWithin, lines_of};
ghost use Rattle.sdr_base.specs.Moves.{KeepsSome, Moves};
ghost use Rattle.sdr_base.specs.Objects.{TakesZeros, with_given, with_bytes, with_root, with_mark};
ghost use Rattle.sdr_base.specs.Objects.{OnlyUnmoved, OnlyFault, OnlyShort};
ghost use Rattle.sdr_base.specs.Entries.{Few};
ghost use Rattle.sdr_base.specs.Transaction.{LeavesUnlessFull};
ghost use Rattle.sdr_base.specs.Works.{Spends, Looks, LeadsOn, StaysQuiet};
ghost use Rattle.sdr_base.specs.declared.control.TheConstants as control;
ghost use Rattle.sdr_base.specs.declared.line.TheConstants.{LINE, MOST_LINES, WORD};

use crate::{Addr, HasHeap, Kind, Stop};

/// The blocks of a heap by their addresses, and the control words that belong to what the blocks
/// keep, in a transaction.
///
/// A call that isn't answered `Ok` or refused `NoBlock` may leave blocks that tile no heap: the
/// transaction has to be cancelled.
pub trait Objects: HasHeap {
    /// Takes a block of so many zero bytes, and marks it. It is refused `NoBlock` exactly where the
    /// rule gives none, and then touches no line.
    fn take(&mut self, kind: Kind, need: u64) -> Result<Addr, Stop>
        requires kept { KeepsSome (Self.keeps self.old) }
        requires spare { 1 ≤ (Self.heap self.old).spare }
        ensures taken { IfOk result (λ addr.
            TakesZeros kind need addr (Self.heap self.old) (Self.heap self.new)) }
        ensures refused { IfErr result (OnlyShort need (Self.heap self.old) (Self.heap self.new)) }
        ensures works { Spends Self.HasHeap (24 + need / 64) self.old self.new result }
        ensures untouched { IfErr result
            (LeavesUnlessFull (Self.transaction self.old) (Self.transaction self.new)) };

    /// Gives the block at an address back. Its mark stays.
    fn give(&mut self, addr: Addr) -> Result<(), Stop>
        requires kept { KeepsSome (Self.keeps self.old) }
        requires spare { 1 ≤ (Self.heap self.old).spare }
        requires used { Uses (Self.heap self.old).blocks addr }
        ensures given { OnOk result (Self.heap self.new ≡ with_given (Self.heap self.old) addr) }
        ensures refused { IfErr result (OnlyUnmoved (Self.heap self.old) (Self.heap self.new)) }
        ensures works { Spends Self.HasHeap 24 self.old self.new result };

    /// The kind of the block in use at an address, and how many bytes it has; `None` where none
    /// begins there.
    fn kind(&mut self, addr: Addr) -> Result<Option<(Kind, u64)>, Stop>
        requires kept { KeepsSome (Self.keeps self.old) }
        ensures found { IfOk result (λ found. found ≡ kind_length
            ((Self.heap self.old).blocks addr)) }
        ensures refused { IfErr result OnlyFault }
        ensures looks { Looks Self.HasHeap self.old self.new result };

    /// Fills a buffer with the bytes of a block in use, from a place in it on.
    fn get(&mut self, addr: Addr, place: u64, into: &mut [u8]) -> Result<(), Stop>
        requires kept { KeepsSome (Self.keeps self.old) }
        requires inside { UsesRange (Self.heap self.old).blocks addr place (length into.old) }
        ensures given { OnOk result
            (HasBytes ((Self.heap self.old).blocks addr) place (length into.old) into.new) }
        ensures refused { IfErr result OnlyFault }
        ensures looks { Looks Self.HasHeap self.old self.new result };

    /// Writes bytes into a block in use, from a place in it on. It touches the lines of these bytes.
    fn put(&mut self, addr: Addr, place: u64, from: &[u8]) -> Result<(), Stop>
        requires kept { KeepsSome (Self.keeps self.old) }
        requires inside { UsesRange (Self.heap self.old).blocks addr place (length from.now) }
        ensures written { OnOk result
            (Self.heap self.new ≡ with_bytes (Self.heap self.old) addr place from.now) }
        ensures refused { IfErr result (OnlyUnmoved (Self.heap self.old) (Self.heap self.new)) }
        ensures works { Spends Self.HasHeap (2 + length from.now / 64) self.old self.new result }
        ensures lines { TouchesWithin (lines_of (addr + place) (length from.now))
            (Self.transaction self.old) (Self.transaction self.new) result };

    /// The number in a control word that belongs to what the blocks keep: the catalogue, the
    /// accounts, the next ticket.
    fn root(&mut self, word: u64) -> Result<u64, Stop>
        requires kept { KeepsSome (Self.keeps self.old) }
        requires least { control.FIRST_NAME ≤ word }
        requires most { word < control.CONTROL_WORDS }
        ensures given { IfOk result (λ value. value ≡ (Self.heap self.old).roots word) }
        ensures refused { IfErr result OnlyFault }
        ensures looks { Looks Self.HasHeap self.old self.new result };

    /// Puts a number into such a control word, and touches its line.
    fn set_root(&mut self, word: u64, value: u64) -> Result<(), Stop>
        requires kept { KeepsSome (Self.keeps self.old) }
        requires least { control.FIRST_NAME ≤ word }
        requires most { word < control.CONTROL_WORDS }
        ensures written { OnOk result (Self.heap self.new
            ≡ with_root (Self.heap self.old) word value) }
        ensures refused { IfErr result (OnlyUnmoved (Self.heap self.old) (Self.heap self.new)) }
        ensures works { Spends Self.HasHeap 1 self.old self.new result }
        ensures lines { TouchesWithin (lines_of (WORD * word) WORD)
            (Self.transaction self.old) (Self.transaction self.new) result };

    /// Marks a block in use for this transaction.
    fn mark(&mut self, addr: Addr)
        requires kept { KeepsSome (Self.keeps self.old) }
        requires used { Uses (Self.heap self.old).blocks addr }
        ensures marked { Self.heap self.new ≡ with_mark (Self.heap self.old) addr }
        ensures kept { KeepsSome (Self.keeps self.new) }
        ensures moved { LeadsOn Self.HasHeap self.old self.new }
        ensures same { Self.transaction self.new ≡ Self.transaction self.old }
        ensures quiet { StaysQuiet Self.HasHeap self.old self.new };

    /// Whether an address was taken or marked in this transaction.
    fn marked(&self, addr: Addr) -> bool
        ensures { result ≡ (Self.heap self.now).marks addr };

    /// A state keeps it itself.
    ghost quiet_refl: { (a : Self) → Self.quiet a a };

    /// What two calls keep one after another, they keep together.
    ghost quiet_trans: { (a b c : Self) → Self.quiet a b → Self.quiet b c → Self.quiet a c };

    /// The bytes of the heap region stay as many.
    ghost quiet_size: { (a b : Self) → Self.quiet a b → (Self.heap b).size ≡ (Self.heap a).size };

    /// No move fits.
    ghost moved_refl: { (a : Self) → Self.moved a a };

    /// Moves that fit one after another fit together.
    ghost moved_trans: { (a b c : Self) → Self.moved a b → Self.moved b c → Self.moved a c };

    /// The moves lead from the pools before to pools that are kept after.
    ghost moved_leads: { (a b : Self) → Self.moved a b
        → Moves (Self.keeps a) (Self.keeps b) (Self.heap a).moves (Self.heap b).moves };

    /// Blocks that tile the heap are few: one in use for 16 bytes at most.
    ghost few: { (a : Self) → KeepsSome (Self.keeps a)
        → Few (Self.heap a).size (Self.heap a).blocks };

    /// The region is of no more bytes than are allowed.
    ghost small: { (a : Self) → KeepsSome (Self.keeps a)
        → (Self.heap a).size ≤ LINE * MOST_LINES };
}
