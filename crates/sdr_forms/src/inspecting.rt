// A heap that is looked at, and what is said of it.
ghost use Rattle.std.specs.Prelude.{◌≡◌, ◌≤◌, ◌⊎◌, IfErr, IfOk};
ghost use Rattle.std.specs.Io.KnownBytes.{Appends};
ghost use Rattle.sdr_base.specs.Causes.{Rose};
ghost use Rattle.sdr_base.specs.Written.{AppendsPart};
ghost use Rattle.sdr_disk.specs.Moments.{Reads};
ghost use Rattle.sdr_forms.specs.Answers.{Wrote, seen};
ghost use Rattle.sdr_forms.specs.Inspecting.{AnswersInspect, GivesThis};
ghost use Rattle.sdr_forms.specs.Shutting.{line_shut};
ghost use Rattle.sdr_forms.specs.declared.status.TheConstants.{DONE, OUTPUT_FAULT, NO_MEMORY};
ghost use Rattle.sdr_station.specs.Opening.{ExplainsOpen, IsOfAudit, IsOfImage};
ghost use Rattle.sdr_text_world.specs.WorldText.{HasSmallSums, world_text};

use crate::shutting::tell_shut;
use crate::status::{DONE, OUTPUT_FAULT};
use sdr_audit::{AuditError, Survey, read_survey};
use sdr_base::Sink;
use sdr_disk::Disk;
use sdr_image::{ImageError, peek};
use sdr_station::OpenError;
use sdr_text_world::{PrintError, write_world};
use std::alloc::Global;

// Why a disk's heap wasn't put back in memory.
fn why_unread(error: ImageError) -> OpenError
    ensures { IsOfImage error result }
{
    match error {
        ImageError::NotFormatted => OpenError::NotFormatted,
        ImageError::DiskFault => OpenError::DiskFault,
        ImageError::NoMemory => OpenError::NoMemory,
    }
}

// Why no world is known to stand for a heap.
fn why_unsound(error: AuditError) -> OpenError
    ensures { IsOfAudit error result }
{
    match error {
        AuditError::Damaged { place, why } => OpenError::Damaged { place, why },
        AuditError::DiskFault => OpenError::DiskFault,
        AuditError::Failed => OpenError::DiskFault,
        AuditError::NoMemory => OpenError::NoMemory,
    }
}

// The world that stands for the heap which the disk gives, and a census of its blocks.
fn survey_disk<D: Disk>(alloc: Global, disk: &mut D) -> Result<Survey, OpenError>
    ensures given { IfOk result (λ s. GivesThis s.world s.census (D.bytes disk.old)) }
    ensures small { IfOk result (λ s. HasSmallSums s.world) }
    ensures why { IfErr result (ExplainsOpen (D.bytes disk.old)
        (D.faults disk.old) (D.faults disk.new)) }
    ensures later { D.faults disk.old ≤ D.faults disk.new }
    ensures reads { Reads D.bytes D.tells_crashes D.moment D.may_hold_after disk.old disk.new }
{
    let mut still = match peek(alloc, disk) {
        Ok(still) => still,
        Err(error) => return Err(why_unread(error)),
    };
    match read_survey(alloc, &mut still) {
        Ok(survey) => Ok(survey),
        Err(error) => Err(why_unsound(error)),
    }
}

// Prints what was found.
fn show<K: Sink>(alloc: Global, survey: &Survey, output: &mut K) -> u8
    requires small { HasSmallSums survey.now.world }
    ensures known { (result ≡ DONE) ⊎ (result ≡ OUTPUT_FAULT) ⊎ (result ≡ NO_MEMORY) }
    ensures text { result ≡ DONE → Appends (K.taken output.old) (K.taken output.new)
        (world_text survey.now.world survey.now.census) }
    ensures part { result ≡ OUTPUT_FAULT → AppendsPart (K.taken output.old) (K.taken output.new)
        (world_text survey.now.world survey.now.census) }
    ensures output { result ≡ OUTPUT_FAULT → Rose (K.faults output.old) (K.faults output.new) }
    ensures starved { result ≡ NO_MEMORY →
        Wrote (seen K.taken K.faults output.old) (seen K.taken K.faults output.new)
        (line_shut OpenError.NoMemory) }
    ensures later { K.faults output.old ≤ K.faults output.new }
{
    match write_world(alloc, output, &survey.world, &survey.census) {
        Ok(()) => DONE,
        Err(PrintError::Output) => OUTPUT_FAULT,
        Err(PrintError::NoMemory) => tell_shut(OpenError::NoMemory, output),
    }
}

/// Prints the world that stands for the heap which the disk gives, put back in memory. The disk is
/// only read. It costs an audit of every byte of the heap.
pub fn inspect_disk<D: Disk, K: Sink>(alloc: Global, disk: &mut D, output: &mut K) -> u8
    ensures answers { AnswersInspect D.Disk result disk.old disk.new
        (seen K.taken K.faults output.old) (seen K.taken K.faults output.new) }
    ensures later { (K.faults output.old ≤ K.faults output.new)
        × (D.faults disk.old ≤ D.faults disk.new) }
{
    match survey_disk(alloc, disk) {
        Ok(survey) => show(alloc, &survey, output),
        Err(why) => tell_shut(why, output),
    }
}
