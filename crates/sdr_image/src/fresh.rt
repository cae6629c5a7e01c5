// The control words of a fresh heap.
ghost use Rattle.std.specs.Prelude.{◌≡◌, ◌≤◌, flat_map};
ghost use Rattle.byteorder.specs.Endian.{big_bytes};
ghost use Rattle.sdr_base.specs.FreshHeap.{first_block, fresh_account, fresh_words, fresh_control};

use byteorder::{BigEndian, ByteOrder};
use sdr_base::control::{
    BULK_MAXIMUM, FILE_MAXIMUM, HEAP_MAXIMUM, HEAP_VERSION, HIGH, INBOUND, LOW, NEXT_TICKET,
    OUTBOUND, SIZE, START, VERSION,
};
use sdr_base::{LINE, MOST_LINES, START_BITS};

// The place of the first block in a heap region of so many lines.
fn first_block(lines: u64) -> u64
    requires { lines ≤ MOST_LINES }
    ensures { result ≡ first_block lines }
{
    START_BITS + 64 * lines.div_ceil(64)
}

// An account of a fresh heap of so many lines.
fn fresh_account(lines: u64) -> [u64; 8]
    requires { lines ≤ MOST_LINES }
    ensures { result ≡ fresh_account lines }
{
    let mut account = [0; 8];
    account[FILE_MAXIMUM as usize] = 1 << 40;
    account[BULK_MAXIMUM as usize] = 1 << 40;
    account[HEAP_MAXIMUM as usize] = 32 * lines;
    account
}

// The control words of a fresh heap of so many lines.
fn fresh_words(lines: u64) -> [u64; 128]
    requires { lines ≤ MOST_LINES }
    ensures { result ≡ fresh_words lines }
{
    let mut words = [0; 128];
    words[SIZE as usize] = LINE * lines;
    words[START as usize] = first_block(lines);
    words[LOW as usize] = first_block(lines);
    words[HIGH as usize] = LINE * lines;
    words[VERSION as usize] = HEAP_VERSION;
    let account = fresh_account(lines);
    words[INBOUND as usize..OUTBOUND as usize].copy_from_slice(&account);
    words[OUTBOUND as usize..NEXT_TICKET as usize].copy_from_slice(&account);
    words[NEXT_TICKET as usize] = 1;
    words
}

/// The bytes of the control words of a fresh heap of so many lines.
pub fn fresh_control(lines: u64) -> [u8; 1024]
    requires { lines ≤ MOST_LINES }
    ensures { result ≡ fresh_control lines }
{
    let mut control = [0; 1024];
    BigEndian::write_u64_into(&fresh_words(lines), &mut control);
    control
}
