// Printed bytes that wait.
ghost use Rattle.std.specs.Prelude.{◌≡◌, ◌≤◌, ◌<◌, ◌+◌, ◌++◌, [], OnErr, OnOk, drop, length, take};
ghost use Rattle.std.specs.Io.KnownBytes.{Appends, Keeps, append_known};
ghost use Rattle.sdr_base.specs.Causes.{HasCause};
ghost use Rattle.sdr_base.specs.Written.{AppendsPart};

use sdr_base::{Sink, SinkFault};
use std::marker::Model;

/// The bytes that a buffer has room for.
pub const ROOM: usize = 8192;

// Puts bytes behind the first of a buffer, so many, and gives how many there are then.
#[tactic(auto, using(std::proofs::lemmas::Slice::overwrites))]
fn put_behind(buffer: &mut [u8], len: usize, from: &[u8]) -> usize
    requires { len + length from.now ≤ length buffer.old }
    ensures end { result ≡ len + length from.now }
    ensures text { take result buffer.new ≡ take len buffer.old ++ from.now }
{
    let end = len + from.len();
    buffer[len..end].copy_from_slice(from);
    end
}

// Writes until all is written or a write fails, and gives how many bytes were written.
#[tactic(auto, using(crate::proofs::WaitingLemmas::writing))]
fn write_front<K: Sink>(out: &mut K, bytes: &[u8]) -> (usize, Result<(), SinkFault>)
    requires { length bytes.now ≤ 8192 }
    ensures bound { result.0 ≤ length bytes.now }
    ensures all { OnOk result.1 (result.0 ≡ length bytes.now) }
    ensures bytes { Appends (K.taken out.old) (K.taken out.new) (take result.0 bytes.now) }
    ensures cause { HasCause (K.faults out.old) (K.faults out.new) result.1 }
{
    let mut written = 0;
    while written < bytes.len() {
        match out.write(&bytes[written..]) {
            Ok(0) => return (written, Err(SinkFault)),
            Ok(count) => written += count as usize,
            Err(fault) => return (written, Err(fault)),
        }
    }
    (written, Ok(()))
}

/// Printed bytes that wait to be written. Contracts see them, and how often the buffer has refused a
/// write since something was last put into it. As a sink it takes the front of a piece that it has
/// room for, and fails where it has none.
#[derive(Drop)]
pub struct OutputBuffer {
    bytes: [u8; ROOM],
    len: usize,
    refused: u64,
}

impl Model for OutputBuffer {
    ghost use Rattle.std.specs.Prelude.{◌≡◌, ◌≤◌, ◌<◌, take};
    ghost use Rattle.sdr_buffer.specs.Waiting.{Waiting};

    ghost Value = { Waiting };

    ghost view = { λ s. record { bytes = take s.len s.bytes; refused = s.refused } };

    ghost invariant = { λ s. (s.len ≤ 8192) × (0 < s.refused → s.len ≡ 8192) };
}

impl OutputBuffer {
    ghost use Rattle.sdr_buffer.specs.Waiting.{Waiting};

    /// A buffer in which nothing waits.
    pub fn new() -> OutputBuffer
        ensures { result ≡ record { bytes = []; refused = 0 } }
    {
        OutputBuffer {
            bytes: [0; ROOM],
            len: 0,
            refused: 0,
        }
    }

    // How many bytes wait, before another text is put behind them.
    pub(crate) fn start(&mut self) -> usize
        ensures start { result ≡ length self.old.bytes }
        ensures same { self.new.bytes ≡ self.old.bytes }
        ensures none { self.new.refused ≡ 0 }
    {
        self.refused = 0;
        self.len
    }

    // Leaves the first bytes, so many.
    pub(crate) fn cut(&mut self, len: usize)
        requires { len ≤ length self.old.bytes }
        ensures cut { self.new ≡ record { bytes = take len self.old.bytes; refused = 0 } }
        ensures full { 0 < self.old.refused → length self.old.bytes ≡ 8192 }
    {
        self.refused = 0;
        self.len = len;
    }

    // Leaves what stands behind the first bytes, so many, where some does.
    #[inline(never)]
    fn keep_rest(&mut self, count: usize)
        requires { count ≤ length self.old.bytes }
        ensures { self.new ≡ record { bytes = drop count self.old.bytes; refused = 0 } }
    {
        let mut rest = [0; ROOM];
        let len = put_behind(&mut rest, 0, &self.bytes[count..self.len]);
        self.bytes = rest;
        self.len = len;
        self.refused = 0;
    }

    // Leaves what stands behind the first bytes, so many. Where that is nothing, no byte is moved.
    fn keep_behind(&mut self, count: usize)
        requires { count ≤ length self.old.bytes }
        ensures { self.new ≡ record { bytes = drop count self.old.bytes; refused = 0 } }
    {
        if count == self.len {
            self.cut(0);
        } else {
            self.keep_rest(count);
        }
    }

    /// Writes what waits: all, or a part from the front where the output fails. What wasn't written waits on.
    pub fn pass_on<K: Sink>(&mut self, out: &mut K) -> Result<(), SinkFault>
        // result
        ensures ok { OnOk result (Appends (K.taken out.old) (K.taken out.new) self.old.bytes) }
        ensures empty { OnOk result (self.new.bytes ≡ []) }

        // faults
        ensures err { OnErr result (AppendsPart (K.taken out.old) (K.taken out.new) self.old.bytes) }
        ensures cause { HasCause (K.faults out.old) (K.faults out.new) result }

        // what stays: nothing is lost or doubled, and an output that has nothing to take isn't called
        ensures same { Keeps (append_known (K.taken out.old) self.old.bytes)
            (append_known (K.taken out.new) self.new.bytes) }
        ensures idle { self.old.bytes ≡ [] → out.new ≡ out.old }
    {
        if self.len == 0 {
            return Ok(());
        }
        let (count, result) = write_front(out, &self.bytes[..self.len]);
        self.keep_behind(count);
        result
    }
}

impl Sink for OutputBuffer {
    ghost use Rattle.std.specs.Prelude.{Some};

    ghost taken = { λ s. Some s.bytes };

    ghost faults = { λ s. s.refused };

    fn write(&mut self, from: &[u8]) -> Result<u64, SinkFault> {
        let count = from.len().min(ROOM - self.len);
        if count == 0 && !from.is_empty() {
            self.refused = self.refused.saturating_add(1);
            return Err(SinkFault);
        }
        self.len = put_behind(&mut self.bytes, self.len, &from[..count]);
        Ok(count as u64)
    }
}
