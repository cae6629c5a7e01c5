// Standard input and output as a source and a sink.
ghost use Rattle.std.specs.Prelude.{◌≡◌, ◌≤◌, IfOk, length};
ghost use Rattle.std.specs.Io.KnownBytes.{ReadConsumes, WriteAppends};

use sdr_base::{Sink, SinkFault, Source, SourceFault};
use std::io;
use std::io::{ErrorKind, Read, Write};
use std::rt::Clock;
use std::time::Duration;

/// So many milliseconds are waited before a pipe that isn't ready is tried again.
const PAUSE: u64 = 5;

// Whether a call is to be made again: where a signal broke it off, and where a pipe that doesn't
// wait wasn't ready, which is waited for a moment.
fn is_tried_again(clock: &impl Clock, error: &io::Error) -> bool {
    match error.kind() {
        ErrorKind::Interrupted => true,
        ErrorKind::WouldBlock => {
            clock.sleep(Duration::from_millis(PAUSE));
            true
        }
        _ => false,
    }
}

// Reads once, and again where that is to be made again.
fn read_again<R: Read, C: Clock>(clock: &C, inner: &mut R, into: &mut [u8]) -> io::Result<usize>
    ensures bound { IfOk result (λ n. n ≤ length into.new) }
    ensures bytes { ReadConsumes (R.remaining inner.old) (R.remaining inner.new)
        result into.new }
{
    for _ in 0..u64::MAX {
        match inner.read(into) {
            Err(error) if is_tried_again(clock, &error) => {}
            read => return read,
        }
    }
    inner.read(into)
}

// Writes once, and again where that is to be made again.
fn write_again<W: Write, C: Clock>(clock: &C, inner: &mut W, from: &[u8]) -> io::Result<usize>
    ensures bound { IfOk result (λ n. n ≤ length from.now) }
    ensures bytes { WriteAppends (W.contents inner.old) (W.contents inner.new)
        result from.now }
{
    for _ in 0..u64::MAX {
        match inner.write(from) {
            Err(error) if is_tried_again(clock, &error) => {}
            written => return written,
        }
    }
    inner.write(from)
}

/// A reader as a source. It counts its reads, and its faults: each error is one, but for a signal
/// that broke off a read, and a reader that isn't ready and doesn't wait: then the read is made again.
#[derive(Drop)]
pub struct StdSource<R, C> {
    inner: R,
    clock: C,
    faults: u64,
    reads: u64,
}

impl<R: Read, C: Clock> StdSource<R, C> {
    pub fn new(inner: R, clock: C) -> StdSource<R, C>
        ensures faults { ⟦<StdSource<R, C> as Source>⟧.faults result ≡ 0 }
        ensures reads { ⟦<StdSource<R, C> as Source>⟧.reads result ≡ 0 }
    {
        StdSource {
            inner,
            clock,
            faults: 0,
            reads: 0,
        }
    }
}

impl<R: Read, C: Clock> Source for StdSource<R, C> {
    ghost left = { λ s. R.remaining s.inner };

    ghost faults = { λ s. s.faults };

    ghost reads = { λ s. s.reads };

    fn read(&mut self, into: &mut [u8]) -> Result<u64, SourceFault> {
        self.reads = self.reads.saturating_add(1);
        match read_again(&self.clock, &mut self.inner, into) {
            Ok(count) => Ok(count as u64),
            Err(_) => {
                self.faults = self.faults.saturating_add(1);
                Err(SourceFault)
            }
        }
    }
}

/// A writer as a sink. Each error, and each write that takes nothing, is a fault, which it counts. A
/// write that a signal broke off, or for which a writer that doesn't wait wasn't ready, is made again.
#[derive(Drop)]
pub struct StdSink<W, C> {
    inner: W,
    clock: C,
    faults: u64,
}

impl<W: Write, C: Clock> StdSink<W, C> {
    pub fn new(inner: W, clock: C) -> StdSink<W, C>
        ensures { ⟦<StdSink<W, C> as Sink>⟧.faults result ≡ 0 }
    {
        StdSink {
            inner,
            clock,
            faults: 0,
        }
    }
}

impl<W: Write, C: Clock> Sink for StdSink<W, C> {
    ghost taken = { λ s. W.contents s.inner };

    ghost faults = { λ s. s.faults };

    fn write(&mut self, from: &[u8]) -> Result<u64, SinkFault> {
        match write_again(&self.clock, &mut self.inner, from) {
            Ok(count) => {
                if count == 0 {
                    self.faults = self.faults.saturating_add(1);
                }
                Ok(count as u64)
            }
            Err(_) => {
                self.faults = self.faults.saturating_add(1);
                Err(SinkFault)
            }
        }
    }
}
