// An empty heap for a disk, and what is said of it.
ghost use Rattle.std.specs.Prelude.{◌≡◌, ◌≤◌, ◌<◌, ◌↔◌, codes, length};
ghost use Rattle.std.specs.Io.KnownBytes.{Appends};
ghost use Rattle.sdr_base.specs.Causes.{Rose};
ghost use Rattle.sdr_base.specs.Written.{AppendsPart};
ghost use Rattle.sdr_disk.specs.Pending.{IsSynced};
ghost use Rattle.sdr_image.specs.declared.error.FormatError.TheVariants as errors;
ghost use Rattle.sdr_log.specs.Calls.{KeepsDisk};
ghost use Rattle.sdr_log.specs.Frame.{IsInLimits, disk_bytes};
ghost use Rattle.sdr_forms.specs.Formatting.{line_formatted, line_too_small, IsFormatted, HasFormatted, IsFormatStatus};
ghost use Rattle.sdr_forms.specs.Still.{WritesOut};
ghost use Rattle.sdr_forms.specs.declared.status.TheConstants.{DONE, OUTPUT_FAULT};

use crate::last_line::{last_line, print_line};
use crate::status::{DISK_FAULT, TOO_SMALL};
use sdr_base::Sink;
use sdr_disk::Disk;
use sdr_image::{FormatError, format};
use sdr_log::Frame;
use sdr_text::Line;

// Tells that the disk is formatted.
fn tell_formatted<K: Sink>(output: &mut K, frame: Frame) -> u8
    ensures known { HasFormatted result }
    ensures later { K.faults output.old ≤ K.faults output.new }
    ensures text { result ≡ DONE →
        Appends (K.taken output.old) (K.taken output.new) (line_formatted frame) }
    ensures part { result ≡ OUTPUT_FAULT →
        AppendsPart (K.taken output.old) (K.taken output.new) (line_formatted frame) }
    ensures output { result ≡ OUTPUT_FAULT → Rose (K.faults output.old) (K.faults output.new) }
{
    let mut text = Line::new();
    text.push(b"formatted ");
    text.number(frame.log_lines);
    text.push(b" ");
    text.number(frame.heap_lines);
    text.push(b"\n");
    print_line(output, text.as_slice())
}

// Tells how many bytes the regions take, and how many the disk has.
fn tell_too_small<K: Sink>(output: &mut K, need: u64, have: u64)
    ensures written { WritesOut (K.taken output.old) (K.taken output.new)
        (K.faults output.old) (K.faults output.new)
        (line_too_small need have) }
    ensures later { K.faults output.old ≤ K.faults output.new }
{
    let mut text = Line::new();
    text.push(b"too small ");
    text.number(need);
    text.push(b" ");
    text.number(have);
    text.push(b"\n");
    last_line(output, text.as_slice());
}

/// Formats the disk, and says so. It takes no memory.
pub fn format_disk<D: Disk, K: Sink>(frame: Frame, disk: &mut D, output: &mut K) -> u8
    requires { IsInLimits frame }
    ensures known { IsFormatStatus result }
    ensures later { (D.faults disk.old ≤ D.faults disk.new)
        × (K.faults output.old ≤ K.faults output.new) }

    // done
    ensures formatted { HasFormatted result →
        IsFormatted frame (D.bytes disk.old) (D.bytes disk.new) }
    ensures synced { HasFormatted result
        → IsSynced D.bytes D.tells_crashes D.moment D.may_hold_after disk.new }
    ensures text { result ≡ DONE →
        Appends (K.taken output.old) (K.taken output.new) (line_formatted frame) }
    ensures part { result ≡ OUTPUT_FAULT →
        AppendsPart (K.taken output.old) (K.taken output.new) (line_formatted frame) }
    ensures output { result ≡ OUTPUT_FAULT → Rose (K.faults output.old) (K.faults output.new) }

    // not done
    ensures small { (result ≡ TOO_SMALL) ↔ (length (D.bytes disk.old) < disk_bytes frame) }
    ensures small_text { result ≡ TOO_SMALL
        → WritesOut (K.taken output.old) (K.taken output.new) (K.faults output.old) (K.faults
        output.new) (line_too_small (disk_bytes frame) (length (D.bytes disk.old))) }
    ensures fault { result ≡ DISK_FAULT → Rose (D.faults disk.old) (D.faults disk.new) }
    ensures fault_text { result ≡ DISK_FAULT →
        WritesOut (K.taken output.old) (K.taken output.new) (K.faults output.old) (K.faults output.new)
        (codes "disk fault\n") }

    // what stays
    ensures same { result ≡ TOO_SMALL → disk.new ≡ disk.old }
    ensures keeps { KeepsDisk D.bytes D.tells_crashes disk.old disk.new }
{
    match format(disk, frame) {
        Ok(()) => tell_formatted(output, frame),
        Err(FormatError::TooSmall { need, have }) => {
            tell_too_small(output, need, have);
            TOO_SMALL
        }
        Err(FormatError::DiskFault) => {
            last_line(output, b"disk fault\n");
            DISK_FAULT
        }
    }
}
