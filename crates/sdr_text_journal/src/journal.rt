// A journal that is printed, entry by entry.
ghost use Rattle.std.specs.Prelude.{◌≡◌, OnErr, OnOk};
ghost use Rattle.std.specs.Io.KnownBytes.{Appends, append_known};
ghost use Rattle.sdr_base.specs.Causes.{HasCause};
ghost use Rattle.sdr_base.specs.Written.{AppendsPart};
ghost use Rattle.sdr_buffer.specs.Waiting.{Grows};
ghost use Rattle.sdr_text.specs.JournalText.{journal_text};

use sdr_base::{Sink, SinkFault};
use sdr_buffer::{OutputBuffer, Printed, put};
use sdr_model::Entry;
use sdr_text::write_journal;

// Entries of a journal, one after another.
#[derive(Drop)]
struct Entries<'e> {
    entries: &'e [Entry],
}

impl Printed for Entries<'_> {
    ghost use Rattle.sdr_text.specs.JournalText.{journal_text};

    ghost text = { λ s. journal_text s.entries.now };

    ghost can = { λ _. Unit {0} };

    fn write_to<K: Sink>(&self, out: &mut K) -> Result<(), SinkFault> {
        write_journal(out, self.entries)
    }
}

// Puts a journal behind what waits for an output, each entry as a whole.
fn put_journal<K: Sink>(
    out: &mut K,
    waiting: &mut OutputBuffer,
    journal: &[Entry],
) -> Result<(), SinkFault>
    ensures ok { OnOk result (Appends (append_known (K.taken out.old) waiting.old.bytes)
        (append_known (K.taken out.new) waiting.new.bytes) (journal_text journal.now)) }
    ensures err { OnErr result (AppendsPart (append_known (K.taken out.old) waiting.old.bytes)
        (append_known (K.taken out.new) waiting.new.bytes) (journal_text journal.now)) }
    ensures grows { Grows (K.taken out.old) (K.taken out.new) }
    ensures cause { HasCause (K.faults out.old) (K.faults out.new) result }
{
    let mut rest = journal;
    while !rest.is_empty() {
        let (entries, after) = rest.split_at(1);
        put(out, waiting, &Entries { entries })?;
        rest = after;
    }
    Ok(())
}

/// Writes a journal: its entries wait in a buffer, and go out together. It writes all, or a part from the front where the
/// sink fails.
pub fn write_entries<K: Sink>(out: &mut K, journal: &[Entry]) -> Result<(), SinkFault>
    ensures ok { OnOk result (Appends (K.taken out.old) (K.taken out.new)
        (journal_text journal.now)) }
    ensures err { OnErr result (AppendsPart (K.taken out.old) (K.taken out.new)
        (journal_text journal.now)) }
    ensures cause { HasCause (K.faults out.old) (K.faults out.new) result }
{
    let mut waiting = OutputBuffer::new();
    put_journal(out, &mut waiting, journal)?;
    waiting.pass_on(out)
}
