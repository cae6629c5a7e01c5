// The literals of bytes.
ghost use Rattle.std.specs.Prelude.{◌≡◌};
ghost use Rattle.std.specs.List.{list_all};
ghost use Rattle.sdr_words.specs.LineAnswers.{GivesOr};
ghost use Rattle.sdr_words.specs.Literals.{is_lower_digit, hex_bytes, filled_of, literal_of};

use crate::LineError;
use crate::words::{number_of, quoted_of};
use hex::{FromHexError, decode};
use sdr_base::Bytes;
use std::alloc::Global;

/// A literal gives at most so many copies of a byte.
const MOST_COPIES: u64 = 4096;

fn is_lower_digit(byte: u8) -> bool
    ensures { result ≡ is_lower_digit byte }
{
    byte.is_ascii_digit() || (b'a'..=b'f').contains(&byte)
}

fn are_lower_digits(bytes: &[u8]) -> bool
    ensures { result ≡ list_all is_lower_digit bytes.now }
{
    bytes.iter().all(|b| is_lower_digit(*b))
}

// The bytes of hexadecimal digits.
fn bytes_of(alloc: Global, digits: &[u8]) -> Result<Bytes, LineError>
    ensures { GivesOr result (hex_bytes digits.now) }
{
    if !are_lower_digits(digits) {
        return Err(LineError::Refused);
    }
    match decode(alloc, digits) {
        Ok(bytes) => Ok(Bytes::of(bytes)),
        Err(FromHexError::OutOfMemory) => Err(LineError::NoMemory),
        Err(_) => Err(LineError::Refused),
    }
}

// The copies of a byte that two digits, `*` and a count spell.
fn filled_of(alloc: Global, field: &[u8]) -> Result<Bytes, LineError>
    ensures { GivesOr result (filled_of field.now) }
{
    let [high, low, b'*', count @ ..] = field else {
        return Err(LineError::Refused);
    };
    let byte = bytes_of(alloc, &[*high, *low])?;
    let [byte] = byte.as_slice() else {
        return Err(LineError::Refused);
    };
    match number_of(count) {
        Some(count @ 0..=MOST_COPIES) => Ok(Bytes::of(vec![in alloc; *byte; count as usize]?)),
        _ => Err(LineError::Refused),
    }
}

/// The bytes that a field spells.
pub fn literal_of(alloc: Global, field: &[u8]) -> Result<Bytes, LineError>
    ensures { GivesOr result (literal_of field.now) }
{
    match field {
        [b'"', ..] => {
            let text = quoted_of(field).ok_or(LineError::Refused)?;
            Ok(Bytes::copied(alloc, text)?)
        }
        [b'x', digits @ ..] => bytes_of(alloc, digits),
        [b'f', filled @ ..] => filled_of(alloc, filled),
        _ => Err(LineError::Refused),
    }
}
