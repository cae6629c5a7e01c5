// The words of a script: numbers, names, quoted texts and daemons.
ghost use Rattle.std.specs.Prelude.{◌≡◌};
ghost use Rattle.std.specs.Char.{is_ascii_digit};
ghost use Rattle.std.specs.List.{list_all};
ghost use Rattle.std.specs.Option.{option_copied};
ghost use Rattle.sdr_words.specs.Words.{
  is_decimal,
  as_number,
  is_name_byte,
  is_name,
  is_quoted,
  quoted_of,
  as_daemon,
};

use sdr_text::are_text_bytes;
use std::str;

fn are_digits(bytes: &[u8]) -> bool
    ensures { result ≡ list_all is_ascii_digit bytes.now }
{
    bytes.iter().all(|b| b.is_ascii_digit())
}

// Whether the bytes are decimal digits without a leading zero, or the digit 0.
fn is_decimal(bytes: &[u8]) -> bool
    ensures { result ≡ is_decimal bytes.now }
{
    !bytes.is_empty() && are_digits(bytes) && (bytes.len() == 1 || bytes[0] != b'0')
}

// The number that a field of any length is.
fn long_number_of(field: &[u8]) -> Option<u64>
    ensures { result ≡ as_number field.now }
{
    if !is_decimal(field) {
        return None;
    }
    let Ok(digits) = str::from_utf8(field) else {
        return None;
    };
    digits.parse().ok()
}

/// The number that a field is. One digit is told without a parse.
pub fn number_of(field: &[u8]) -> Option<u64>
    ensures { result ≡ as_number field.now }
{
    match field {
        [digit @ b'0'..=b'9'] => Some(u64::from(*digit - b'0')),
        _ => long_number_of(field),
    }
}

fn is_name_byte(byte: u8) -> bool
    ensures { result ≡ is_name_byte byte }
{
    byte.is_ascii_alphanumeric() || byte == b'_'
}

fn are_name_bytes(bytes: &[u8]) -> bool
    ensures { result ≡ list_all is_name_byte bytes.now }
{
    bytes.iter().all(|b| is_name_byte(*b))
}

/// Whether a field is a name.
pub fn is_name(field: &[u8]) -> bool
    ensures { result ≡ is_name field.now }
{
    !field.is_empty()
        && field[0].is_ascii_alphabetic()
        && are_name_bytes(field)
        && field.len() <= 31
}

// Whether a field stands in quotation marks.
fn is_quoted(field: &[u8]) -> bool
    ensures { result ≡ is_quoted field.now }
{
    field.len() >= 2 && field[0] == b'"' && field[field.len() - 1] == b'"'
}

/// The text between the quotation marks of a field.
pub fn quoted_of(field: &[u8]) -> Option<&[u8]>
    ensures { option_copied result ≡ quoted_of field.now }
{
    if !is_quoted(field) {
        return None;
    }
    let text = &field[1..field.len() - 1];
    if are_text_bytes(text) {
        Some(text)
    } else {
        None
    }
}

/// The daemon that a field names.
pub fn daemon_of(field: &[u8]) -> Option<u8>
    ensures { result ≡ as_daemon field.now }
{
    let [number @ .., b':'] = field else {
        return None;
    };
    match number_of(number)? {
        daemon @ 1..=16 => Some(daemon as u8),
        _ => None,
    }
}
