// What stands in a block in use, by its kind.
ghost use Rattle.std.specs.Prelude.{◌≡◌, ◌≤◌, ◌<◌, ◌+◌, ◌*◌, ◌==◌, min, length};
ghost use Rattle.std.specs.List.{list_all};
ghost use Rattle.sdr_base.specs.Stored.{number_at};
ghost use Rattle.sdr_base.specs.declared.line.TheConstants.{WORD};
ghost use Rattle.audit_blocks.specs.Content.{field, is_key_length, has_layout, is_hash, is_name_entry, is_source, is_string, is_table, is_ticket, told_bytes};

use byteorder::{BigEndian, ByteOrder};
use sdr_base::Kind;
use sdr_base::limits::{
    LONGEST_CAPSULE, LONGEST_KEY, LONGEST_NAME, LONGEST_PATH, LONGEST_RAW, LONGEST_SOURCE,
    LONGEST_STRING, MOST_BUCKETS,
};
use sdr_model::MOST_AMOUNT;

// The number in a word of a block's bytes, counted from 0.
fn field(first: &[u8], n: usize) -> u64
    requires { WORD * n + WORD ≤ length first.now }
    ensures { result ≡ field first.now n }
{
    BigEndian::read_u64(&first[8 * n..8 * n + 8])
}

// Whether these are all 0.
fn are_zeros(bytes: &[u8]) -> bool
    ensures { result ≡ list_all (λ byte. byte == 0) bytes.now }
{
    bytes.iter().all(|byte| *byte == 0)
}

// Whether a key of a hash may have so many bytes.
fn has_key(count: u64) -> bool
    ensures { result ≡ is_key_length count }
{
    1 <= count && count <= LONGEST_KEY
}

// Whether a string may have so many bytes and begin with these.
fn is_string(count: u64, first: &[u8]) -> bool
    requires { length first.now ≡ min told_bytes count }
    ensures { result ≡ is_string count first.now }
{
    1 <= count && count == 1 + first[0] as u64 && first[0] as u64 <= LONGEST_STRING
}

// Whether a table may have so many bytes and begin with these.
fn is_table(count: u64, first: &[u8]) -> bool
    requires { length first.now ≡ min told_bytes count }
    ensures { result ≡ is_table count first.now }
{
    if count < 24 {
        return false;
    }
    let size = field(first, 1);
    let rows = field(first, 2);
    size <= LONGEST_RAW
        && rows <= LONGEST_RAW
        && rows * size <= LONGEST_RAW
        && count == 24 + rows * size
}

// Whether a hash may have so many bytes and begin with these.
fn is_hash(count: u64, first: &[u8]) -> bool
    requires { length first.now ≡ min told_bytes count }
    ensures { result ≡ is_hash count first.now }
{
    if count < 24 {
        return false;
    }
    let buckets = field(first, 1);
    has_key(field(first, 0)) && 1 <= buckets && buckets <= MOST_BUCKETS && count == 24 + 8 * buckets
}

// Whether an entry of the catalogue may have so many bytes and begin with these.
fn is_name(count: u64, first: &[u8]) -> bool
    requires { length first.now ≡ min told_bytes count }
    ensures { result ≡ is_name_entry count first.now }
{
    if count != 56 {
        return false;
    }
    let name = first[24] as u64;
    field(first, 1) < 1 << 32
        && 1 <= name
        && name <= LONGEST_NAME
        && are_zeros(&first[25 + name as usize..])
}

// Whether a source may have so many bytes and begin with these.
fn is_source(count: u64, first: &[u8]) -> bool
    requires { length first.now ≡ min told_bytes count }
    ensures { result ≡ is_source count first.now }
{
    if count < 48 {
        return false;
    }
    let medium = field(first, 0);
    let path = count - 48;
    let has_subject = if medium == 1 {
        field(first, 4) == 0 && 1 <= path && path <= LONGEST_PATH
    } else {
        path == 0
    };
    1 <= medium
        && medium <= 4
        && field(first, 1) <= 1
        && field(first, 5) <= LONGEST_SOURCE
        && has_subject
}

// Whether a ticket may have so many bytes and begin with these.
fn is_ticket(count: u64, first: &[u8]) -> bool
    requires { length first.now ≡ min told_bytes count }
    ensures { result ≡ is_ticket count first.now }
{
    count == 96
        && field(first, 0) <= MOST_AMOUNT
        && field(first, 1) <= 1
        && field(first, 2) <= 255
        && field(first, 3) <= 255
        && field(first, 4) <= MOST_AMOUNT
        && field(first, 5) <= MOST_AMOUNT
        && field(first, 6) <= MOST_AMOUNT
        && field(first, 10) <= 1
}

/// Whether a block of a kind may have this length in bytes and begin with these, which are at most 96.
pub fn has_layout(kind: Kind, count: u64, first: &[u8]) -> bool
    requires { length first.now ≡ min told_bytes count }
    ensures { result ≡ has_layout kind count first.now }
{
    match kind {
        Kind::Raw => 8 <= count && count <= 8 + LONGEST_RAW,
        Kind::Text => is_string(count, first),
        Kind::List | Kind::Element | Kind::Extent => count == 32,
        Kind::Table => is_table(count, first),
        Kind::Hash => is_hash(count, first),
        Kind::HashEntry => 16 <= count && has_key(count - 16),
        Kind::Name => is_name(count, first),
        Kind::Source => is_source(count, first),
        Kind::Object => count == 72 && field(first, 0) <= 1,
        Kind::Capsule => 9 <= count && count - 8 <= LONGEST_CAPSULE,
        Kind::Ticket => is_ticket(count, first),
    }
}
