// What every disk promises.
ghost use Rattle.std.specs.Prelude.{◌≡◌, ◌≤◌, ◌+◌, ℕ, Bool, List, [], ◌∷◌, length};
ghost use Rattle.std.specs.Prelude.{IsErr, OnOk};
ghost use Rattle.sdr_base.specs.Causes.{HasCause};
ghost use Rattle.sdr_disk.specs.Moments.{IsAtEnd, Reads, RisesOrStays, Syncs, Writes};
ghost use Rattle.sdr_disk.specs.Pending.{IsSynced};
ghost use Rattle.sdr_base.specs.Parts.{overwrite, part};
ghost use Rattle.sdr_disk.specs.Ranges.{Agrees, range};
ghost use Rattle.sdr_disk.specs.Tells.{IfTells};

/// The disk failed.
#[derive(Clone, Copy, Debug, PartialEq, Eq)]
pub struct DiskFault;

/// A disk of a fixed number of bytes.
pub trait Disk {
    /// The bytes that a read gives. No call changes their number.
    ghost bytes: { Self → List ℕ };

    /// Whether the disk tells what a crash may leave. No call changes it.
    ghost tells_crashes: { Self → Bool };

    /// How often the disk has failed. It never falls.
    ghost faults: { Self → ℕ };

    /// How many writes and syncs have begun, and how many have returned, together.
    ghost moment: { Self → ℕ };

    /// Whether a crash at a moment may leave this image.
    ghost may_hold_after: { Self → ℕ → List ℕ → Type 0 };

    /// The number of its bytes.
    fn len(&self) -> u64
        ensures { result ≡ length (bytes self.now) };

    /// Fills a buffer with the bytes from a place on.
    fn read_at(&mut self, place: u64, into: &mut [u8]) -> Result<(), DiskFault>
        requires { place + length into.old ≤ length (bytes self.old) }

        ensures given { OnOk result (into.new ≡ part place (length into.new) (bytes self.old)) }
        ensures cause { HasCause (faults self.old) (faults self.new) result }
        ensures reads { Reads bytes tells_crashes moment may_hold_after self.old self.new };

    /// Writes bytes from a place on. Until a sync succeeds a crash may leave any bytes in their
    /// range, and so it may where the write fails.
    fn write_at(&mut self, place: u64, from: &[u8]) -> Result<(), DiskFault>
        requires { place + length from.now ≤ length (bytes self.old) }

        ensures written { OnOk result (bytes self.new ≡ overwrite place from.now (bytes self.old)) }
        ensures rises { OnOk result (moment self.new ≡ moment self.old + 2) }

        // A write that would bring the moment past its end fails and changes nothing.
        ensures end { IsAtEnd (moment self.old) →
            IsErr result × Reads bytes tells_crashes moment may_hold_after self.old self.new }
        ensures made { RisesOrStays bytes tells_crashes moment may_hold_after self.old self.new }
        ensures cause { HasCause (faults self.old) (faults self.new) result }

        ensures others { Agrees (range place (length from.now) ∷ []) (bytes self.old) (bytes self.new) }
        ensures tells { tells_crashes self.new ≡ tells_crashes self.old }

        ensures moments { Writes moment may_hold_after place (length from.now) self.old self.new };

    /// Makes all that was written last. Where it fails, a crash may still leave any bytes in the
    /// ranges that were written since the last sync that succeeded.
    fn sync(&mut self) -> Result<(), DiskFault>
        ensures rises { OnOk result (moment self.new ≡ moment self.old + 2) }

        // A sync that would bring the moment past its end fails and changes nothing.
        ensures end { IsAtEnd (moment self.old) →
            IsErr result × Reads bytes tells_crashes moment may_hold_after self.old self.new }
        ensures made { RisesOrStays bytes tells_crashes moment may_hold_after self.old self.new }
        ensures cause { HasCause (faults self.old) (faults self.new) result }

        ensures same { bytes self.new ≡ bytes self.old }
        ensures tells { tells_crashes self.new ≡ tells_crashes self.old }

        ensures durable { OnOk result
            (IsSynced bytes tells_crashes moment may_hold_after self.new) }
        ensures moments { Syncs moment may_hold_after self.old self.new };

    /// The disk's moment.
    fn now(&self) -> u64
        ensures { result ≡ moment self.now };

    /// Where the disk tells what a crash may leave, each image at a moment up to now is as long.
    ghost long: { (d : Self) → IfTells (tells_crashes d) ((m : ℕ) (image : List ℕ)
        → m ≤ moment d → may_hold_after d m image → length image ≡ length (bytes d)) };

    /// The bytes as read are one of the images now.
    ghost read_now: { (d : Self) → may_hold_after d (moment d) (bytes d) };
}
