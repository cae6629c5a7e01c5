// The control words.
ghost use Rattle.std.specs.Prelude.{◌≡◌, ◌<◌, ◌≤◌, length, IfErr, IfOk};
ghost use Rattle.sdr_base.specs.Cells.{IsRegionSize};
ghost use Rattle.sdr_base.specs.FreshHeap.{first_block};
ghost use Rattle.sdr_base.specs.declared.control.TheConstants.{CONTROL_WORDS};
ghost use Rattle.sdr_base.specs.declared.line.TheConstants.{MOST_LINES};
ghost use Rattle.audit_blocks.specs.Auditing.{DamagedBy};
ghost use Rattle.audit_blocks.specs.Control.{IsWrongControl, control_word, is_maximum_of, may_be};
ghost use Rattle.audit_blocks.specs.Walked.{AreEdges};

use crate::error::{Check, Damage};
use crate::number::number_at;
use sdr_base::control::{
    BULK_MAXIMUM, CONTROL_WORDS, FILE_MAXIMUM, HEAP_MAXIMUM, HEAP_VERSION, HIGH, INBOUND, LOW,
    NEXT_TICKET, OUTBOUND, SIZE, START, VERSION,
};
use sdr_base::{LINE, START_BITS, WORD};
use sdr_model::MOST_AMOUNT;

/// Where blocks may stand in a heap region, in bytes: small ones from `start` to `low`, large ones from `high` to its end.
#[derive(Clone, Copy)]
pub struct Edges {
    pub start: u64,
    pub low: u64,
    pub high: u64,
    pub end: u64,
}

// The place of the first block in a heap region of so many lines.
fn first_block(lines: u64) -> u64
    requires { lines ≤ MOST_LINES }
    ensures { result ≡ first_block lines }
{
    START_BITS + 64 * lines.div_ceil(64)
}

// Whether a control word is a maximum of the account whose words begin with this one.
fn is_maximum_of(first: u64, word: u64) -> bool
    requires { first < CONTROL_WORDS }
    ensures { result ≡ is_maximum_of first word }
{
    word == first + FILE_MAXIMUM || word == first + BULK_MAXIMUM || word == first + HEAP_MAXIMUM
}

/// The number in a control word.
pub fn control_word(heap: &[u8], word: u64) -> u64
    requires region { IsRegionSize (length heap.now) }
    requires below { word < CONTROL_WORDS }
    ensures { result ≡ control_word heap.now word }
{
    number_at(heap, WORD * word)
}

// Whether a control word may have this value.
fn may_be(heap: &[u8], word: u64, value: u64) -> bool
    requires region { IsRegionSize (length heap.now) }
    ensures { result ≡ may_be heap.now word value }
{
    let size = heap.len() as u64;
    let high = control_word(heap, HIGH);
    let is_edge = value % WORD == 0 && value <= size;
    if word == SIZE {
        value == size
    } else if word == START {
        value == first_block(size / LINE)
    } else if word == LOW {
        is_edge && first_block(size / LINE) <= value && value <= high
    } else if word == HIGH {
        is_edge
    } else if word == VERSION {
        value == HEAP_VERSION
    } else if is_maximum_of(INBOUND, word) || is_maximum_of(OUTBOUND, word) {
        value <= MOST_AMOUNT
    } else if word == NEXT_TICKET {
        1 <= value && value <= MOST_AMOUNT
    } else if word > NEXT_TICKET {
        value == 0
    } else {
        true
    }
}

/// Checks the control words of a heap region in memory, and tells where blocks may stand. What is wrong is the lowest word that is: the
/// size of the region, the place of the first block, the ends of the unassigned space, the heap's version, a maximum, the number of
/// the next ticket, or a word that is always 0. It takes no memory.
pub fn check_control(heap: &[u8]) -> Result<Edges, Damage>
    requires region { IsRegionSize (length heap.now) }
    ensures edges { IfOk result (AreEdges heap.now) }
    ensures damaged { IfErr result (DamagedBy Check.Control (IsWrongControl heap.now)) }
{
    for word in 0..CONTROL_WORDS {
        if !may_be(heap, word, control_word(heap, word)) {
            return Err(Damage {
                place: WORD * word,
                why: Check::Control,
            });
        }
    }
    Ok(Edges {
        start: control_word(heap, START),
        low: control_word(heap, LOW),
        high: control_word(heap, HIGH),
        end: heap.len() as u64,
    })
}
