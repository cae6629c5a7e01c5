// What media count.
ghost use Rattle.std.specs.Prelude.{◌≡◌, ◌+◌, ◌≤◌};

use sdr_base::MediaFault;

/// How often media were read, how often they failed, and how often they gave fewer bytes than were
/// asked for. Each count stops at 2^64 − 1.
#[derive(Drop)]
pub struct Counts {
    pub asks: u64,
    pub faults: u64,
    pub short: u64,
}

impl Counts {
    ghost use Rattle.sdr_media.specs.Counts.{answered, asked, failed};

    pub fn new() -> Counts
        ensures { result ≡ record { asks = 0; faults = 0; short = 0 } }
    {
        Counts {
            asks: 0,
            faults: 0,
            short: 0,
        }
    }

    /// Counts a read, before its answer.
    pub fn count_ask(&mut self)
        ensures counted { self.new ≡ asked self.old }
        ensures once { self.new.asks ≤ self.old.asks + 1 }
    {
        self.asks = self.asks.saturating_add(1);
    }

    /// Counts a fault.
    pub fn count_fault(&mut self) -> MediaFault
        ensures counted { self.new ≡ failed self.old }
        ensures later { self.old.faults ≤ self.new.faults }
    {
        self.faults = self.faults.saturating_add(1);
        MediaFault
    }

    /// Counts an answer of so many of the bytes that were asked for, where it is short.
    pub fn count_answer(&mut self, given: usize, asked: usize)
        ensures counted { self.new ≡ answered given asked self.old }
        ensures later { self.old.short ≤ self.new.short }
    {
        if given < asked {
            self.short = self.short.saturating_add(1);
        }
    }
}
