// A disk in memory.
ghost use Rattle.std.specs.Prelude.{◌≡◌, ◌↔◌, ◌+◌, ◌≤◌, [], ◌∷◌, length, refl};
ghost use Rattle.std.specs.Prelude.{Contains, IfOk, IsErr, OnOk, true};
ghost use Rattle.sdr_base.specs.Causes.{HasCause, counted};
ghost use Rattle.sdr_disk.specs.Moments.{IsAtEnd, Reads, RisesOrStays, Syncs, Writes};
ghost use Rattle.sdr_disk.specs.Pending.{IsSynced};
ghost use Rattle.sdr_base.specs.Parts.{overwrite, part};
ghost use Rattle.sdr_disk.specs.Ranges.{Agrees, range};

use crate::change::Outcome;
use crate::history::History;
use crate::{Disk, DiskFault, Torn};
use sdr_base::NoMemory;
use std::marker::Model;

/// A disk that tells what a crash may leave, keeps a record of its writes and syncs, and fails at listed calls,
/// where its record can't grow, and once it has stopped.
#[derive(Drop)]
pub struct MemoryDisk {
    history: History,
    /// Calls of read, write and sync so far.
    calls: u64,
    faults: u64,
    starved: u64,
    /// The numbers of the calls that fail, counted from 1.
    failing: Vec<u64>,
    /// For how many writes and syncs more it goes on; none where it isn't to stop.
    left: Option<u64>,
}

impl Model for MemoryDisk {
    ghost use Rattle.sdr_disk.specs.MemoryDisk.{Memory};

    ghost Value = { Memory };

    ghost view = { λ d. record {
      history = d.history;
      calls = d.calls;
      faults = d.faults;
      starved = d.starved;
      failing = d.failing.items;
      left = d.left;
    } };
}

impl MemoryDisk {
    ghost use Rattle.sdr_disk.specs.History.{image_of};
    ghost use Rattle.sdr_disk.specs.MemoryDisk.{Memory, called, is_stopped, spent};

    /// A disk of these bytes, whose calls of read, write and sync fail where their numbers, counted
    /// from 1, are in `failing`.
    pub fn new(bytes: Vec<u8>, failing: Vec<u64>) -> MemoryDisk
        ensures bytes { ⟦<MemoryDisk as Disk>⟧.bytes result ≡ bytes.items }
        ensures faults { ⟦<MemoryDisk as Disk>⟧.faults result ≡ 0 }
        ensures fresh { result ≡ record {
          history = record { first = bytes.items; changes = [] };
          calls = 0;
          faults = 0;
          starved = 0;
          failing = failing.items;
          left = None;
        } }
    {
        MemoryDisk {
            history: History::new(bytes),
            calls: 0,
            faults: 0,
            starved: 0,
            failing,
            left: None,
        }
    }

    /// Lets so many writes and syncs more go on as before, also those that fail for another cause. Then
    /// the disk has stopped: each call, a read too, fails and changes nothing but its counts. Where it
    /// was to stop before, that no longer counts.
    pub fn stop_after(&mut self, changes: u64)
        ensures { self.new ≡ record self.old { left = Some changes } }
    {
        self.left = Some(changes);
    }

    /// The image of a crash at a moment that leaves so much of each write that had begun by then
    /// and that no sync had made last. At a moment later than now it is the image now.
    pub fn image_at(&self, moment: u64, torn: Torn) -> Result<Vec<u8>, NoMemory>
        ensures image { IfOk result (λ image. image.items ≡ image_of torn self.now.history moment) }
        ensures left { IfOk result (λ image.
            ⟦<MemoryDisk as Disk>⟧.may_hold_after self.now moment image.items) }
    {
        self.history.image_at(moment, torn)
    }

    /// How many growths of its record were refused. Each of them is a fault, and fails its call.
    pub fn starved(&self) -> u64
        ensures { result ≡ self.now.starved }
    {
        self.starved
    }

    /// The number of its calls so far, which stays at the end of its type.
    pub fn calls(&self) -> u64
        ensures { result ≡ self.now.calls }
    {
        self.calls
    }

    // Counts a call, and says how it is to end.
    fn begin(&mut self) -> Outcome
        ensures called { self.new ≡ called self.old }
        ensures listed { (result ≡ Outcome.Failed)
            ↔ Contains self.old.failing (counted self.old.calls) }
    {
        self.calls = self.calls.saturating_add(1);
        if self.failing.contains(&self.calls) {
            Outcome::Failed
        } else {
            Outcome::Done
        }
    }

    // Whether it has stopped.
    fn is_stopped(&self) -> bool
        ensures { result ≡ is_stopped self.now }
    {
        match self.left {
            Some(changes) => changes == 0,
            None => false,
        }
    }

    // Counts a write or a sync that goes on.
    fn spend(&mut self)
        ensures { self.new ≡ spent self.old }
    {
        if let Some(changes) = self.left {
            self.left = Some(changes.saturating_sub(1));
        }
    }

    // Counts a fault.
    fn fault(&mut self) -> DiskFault
        ensures counted { self.new ≡ record self.old { faults = counted self.old.faults } }
        ensures later { self.old.faults ≤ self.new.faults }
    {
        self.faults = self.faults.saturating_add(1);
        DiskFault
    }

    // Counts a growth that was refused, and a fault.
    fn starve(&mut self) -> DiskFault
        ensures counted { self.new ≡ record self.old {
          faults = counted self.old.faults;
          starved = counted self.old.starved;
        } }
        ensures later { self.old.faults ≤ self.new.faults }
    {
        self.starved = self.starved.saturating_add(1);
        self.fault()
    }
}

impl Disk for MemoryDisk {
    ghost use Rattle.sdr_disk.specs.HistoryLaws.{MayLeave-read};
    ghost use Rattle.sdr_disk.specs.MemoryDisk.{CallsDisk, AnswersRead, CrashLeaves};
    ghost use Rattle.sdr_disk.specs.MemoryDisk.{bytes_now, moment_now, tells_now};
    ghost use Rattle.sdr_disk.specs.declared.change.Change.TheVariants.{Write, Sync};

    ghost bytes = { bytes_now };

    ghost tells_crashes = { tells_now };

    ghost faults = { λ d. d.faults };

    ghost moment = { moment_now };

    ghost may_hold_after = { CrashLeaves };

    ghost long = { λ _ _ _ _ _ left. left.long };

    ghost read_now = { λ d. MayLeave-read d.history };

    fn len(&self) -> u64 {
        self.history.bytes().len() as u64
    }

    fn read_at(&mut self, place: u64, into: &mut [u8]) -> Result<(), DiskFault>
        requires { place + length into.old ≤ length (bytes_now self.old) }

        ensures given { OnOk result (into.new ≡ part place (length into.new) (bytes_now self.old)) }
        ensures cause { HasCause self.old.faults self.new.faults result }
        ensures reads { Reads bytes_now tells_now moment_now CrashLeaves self.old self.new }

        // It fails just where its number is listed, and once the disk has stopped.
        ensures answers { AnswersRead result self.old self.new }
    {
        let outcome = self.begin();
        if outcome == Outcome::Failed || self.is_stopped() {
            return Err(self.fault());
        }
        let place = place as usize;
        into.copy_from_slice(&self.history.bytes()[place..place + into.len()]);
        Ok(())
    }

    #[tactic(auto, using(crate::proofs::MemoryDiskLemmas::writing))]
    fn write_at(&mut self, place: u64, from: &[u8]) -> Result<(), DiskFault>
        requires { place + length from.now ≤ length (bytes_now self.old) }

        ensures written { OnOk result
            (bytes_now self.new ≡ overwrite place from.now (bytes_now self.old)) }
        ensures rises { OnOk result (moment_now self.new ≡ moment_now self.old + 2) }

        ensures end { IsAtEnd (moment_now self.old) →
            IsErr result × Reads bytes_now tells_now moment_now CrashLeaves self.old self.new }
        ensures made { RisesOrStays bytes_now tells_now moment_now CrashLeaves self.old self.new }
        ensures cause { HasCause self.old.faults self.new.faults result }

        ensures others { Agrees (range place (length from.now) ∷ [])
            (bytes_now self.old) (bytes_now self.new) }
        ensures tells { tells_now self.new ≡ tells_now self.old }

        ensures moments { Writes moment_now CrashLeaves place (length from.now) self.old self.new }

        // It fails just where its number is listed, at the end of the moments, where its record found
        // no memory, and once the disk has stopped.
        ensures answers { CallsDisk (Write place from.now) result self.old self.new }
    {
        let outcome = self.begin();
        if self.is_stopped() || self.history.is_at_end() {
            return Err(self.fault());
        }
        self.spend();
        let Ok(()) = self.history.write(place, from, outcome) else {
            return Err(self.starve());
        };
        match outcome {
            Outcome::Done => Ok(()),
            Outcome::Failed => Err(self.fault()),
        }
    }

    #[tactic(auto, using(crate::proofs::MemoryDiskLemmas::syncing))]
    fn sync(&mut self) -> Result<(), DiskFault>
        ensures rises { OnOk result (moment_now self.new ≡ moment_now self.old + 2) }

        ensures end { IsAtEnd (moment_now self.old) →
            IsErr result × Reads bytes_now tells_now moment_now CrashLeaves self.old self.new }
        ensures made { RisesOrStays bytes_now tells_now moment_now CrashLeaves self.old self.new }
        ensures cause { HasCause self.old.faults self.new.faults result }

        ensures same { bytes_now self.new ≡ bytes_now self.old }
        ensures tells { tells_now self.new ≡ tells_now self.old }

        ensures durable { OnOk result (IsSynced bytes_now tells_now moment_now CrashLeaves self.new) }
        ensures moments { Syncs moment_now CrashLeaves self.old self.new }

        // It fails just where its number is listed, at the end of the moments, where its record found
        // no memory, and once the disk has stopped.
        ensures answers { CallsDisk Sync result self.old self.new }
    {
        let outcome = self.begin();
        if self.history.is_at_end() || self.is_stopped() {
            return Err(self.fault());
        }
        self.spend();
        let Ok(()) = self.history.sync(outcome) else {
            return Err(self.starve());
        };
        match outcome {
            Outcome::Done => Ok(()),
            Outcome::Failed => Err(self.fault()),
        }
    }

    fn now(&self) -> u64 {
        self.history.moment()
    }
}
