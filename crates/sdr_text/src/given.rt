// How bytes that a call gave are printed.
ghost use Rattle.std.specs.Prelude.{◌≡◌, ◌≤◌, ◌+◌, ◌*◌, ◌++◌, OnOk, OnErr, codes, length, take};
ghost use Rattle.std.specs.Io.KnownBytes.{Appends};
ghost use Rattle.std.specs.List.{list_all};
ghost use Rattle.hex.specs.Hex.{encode_lower};
ghost use Rattle.sdr_base.specs.Causes.{HasCause};
ghost use Rattle.sdr_base.specs.Written.{AppendsPart};
ghost use Rattle.sdr_text.specs.Text.{is_text_byte, literal_text};

use crate::Line;
use crate::line::put_behind;
use hex::encode_to_slice;
use sdr_base::{Sink, SinkFault, write_all};

/// So many bytes are put into digits at once, where there are more than a call gives.
const PIECE: usize = 128;

/// A call gives at most so many bytes, and with these its line goes out in one write.
const MOST: usize = 4096;

/// The most bytes of a line before the digits, and of its end.
const MOST_AROUND: usize = 1024;

fn write_piece<K: Sink>(out: &mut K, piece: &[u8]) -> Result<(), SinkFault>
    requires { length piece.now ≤ 128 }
    ensures ok { OnOk result (Appends (K.taken out.old) (K.taken out.new)
        (encode_lower piece.now)) }
    ensures err { OnErr result (AppendsPart (K.taken out.old) (K.taken out.new)
        (encode_lower piece.now)) }
    ensures cause { HasCause (K.faults out.old) (K.faults out.new) result }
{
    let mut buffer = [0u8; 2 * PIECE];
    let digits = &mut buffer[..2 * piece.len()];
    encode_to_slice(piece, digits).unwrap();
    write_all(out, digits)
}

// Writes bytes in hexadecimal digits.
#[tactic(auto, using(sdr_base::proofs::WrittenLemmas::sending))]
fn write_digits<K: Sink>(out: &mut K, bytes: &[u8]) -> Result<(), SinkFault>
    ensures ok { OnOk result (Appends (K.taken out.old) (K.taken out.new)
        (encode_lower bytes.now)) }
    ensures err { OnErr result (AppendsPart (K.taken out.old) (K.taken out.new)
        (encode_lower bytes.now)) }
    ensures cause { HasCause (K.faults out.old) (K.faults out.new) result }
{
    let mut rest = bytes;
    while !rest.is_empty() {
        let (piece, after) = rest.split_at(rest.len().min(PIECE));
        write_piece(out, piece)?;
        rest = after;
    }
    Ok(())
}

// Puts the digits of bytes behind the first bytes of a buffer, so many, and gives how many there are then.
#[tactic(auto, using(std::proofs::lemmas::Slice::overwrites))]
fn put_digits(buffer: &mut [u8], len: usize, bytes: &[u8]) -> usize
    requires { len + 2 * length bytes.now ≤ length buffer.old }
    ensures end { result ≡ len + 2 * length bytes.now }
    ensures text { take result buffer.new ≡ take len buffer.old ++ encode_lower bytes.now }
{
    let end = len + 2 * bytes.len();
    encode_to_slice(bytes, &mut buffer[len..end]).unwrap();
    end
}

// Writes the front of a line, the digits of so few bytes as a call gives, and the end of the line at once.
fn write_at_once<K: Sink>(
    out: &mut K,
    front: &[u8],
    bytes: &[u8],
    end: &[u8],
) -> Result<(), SinkFault>
    requires front { length front.now ≤ 1024 }
    requires bytes { length bytes.now ≤ 4096 }
    requires end { length end.now ≤ 1024 }
    ensures ok { OnOk result (Appends (K.taken out.old) (K.taken out.new)
        (front.now ++ encode_lower bytes.now ++ end.now)) }
    ensures err { OnErr result (AppendsPart (K.taken out.old) (K.taken out.new)
        (front.now ++ encode_lower bytes.now ++ end.now)) }
    ensures cause { HasCause (K.faults out.old) (K.faults out.new) result }
{
    let mut buffer = [0u8; 2 * MOST_AROUND + 2 * MOST];
    let len = put_behind(&mut buffer, 0, front);
    let len = put_digits(&mut buffer, len, bytes);
    let len = put_behind(&mut buffer, len, end);
    write_all(out, &buffer[..len])
}

/// Writes the front of a line, bytes in hexadecimal digits, and the end of the line: in one write where the bytes are as few as a
/// call gives.
#[tactic(auto, using(crate::proofs::TextLemmas::parts))]
pub fn write_given<K: Sink>(
    out: &mut K,
    front: &[u8],
    bytes: &[u8],
    end: &[u8],
) -> Result<(), SinkFault>
    ensures ok { OnOk result (Appends (K.taken out.old) (K.taken out.new)
        (front.now ++ encode_lower bytes.now ++ end.now)) }
    ensures err { OnErr result (AppendsPart (K.taken out.old) (K.taken out.new)
        (front.now ++ encode_lower bytes.now ++ end.now)) }
    ensures cause { HasCause (K.faults out.old) (K.faults out.new) result }
{
    if bytes.len() <= MOST && front.len() <= MOST_AROUND && end.len() <= MOST_AROUND {
        return write_at_once(out, front, bytes, end);
    }
    write_all(out, front)?;
    write_digits(out, bytes)?;
    write_all(out, end)
}

/// Writes the front of a line, a text, and the end of the line.
#[tactic(auto, using(crate::proofs::TextLemmas::parts))]
pub fn write_text<K: Sink>(
    out: &mut K,
    front: &[u8],
    text: &[u8],
    end: &[u8],
) -> Result<(), SinkFault>
    ensures ok { OnOk result (Appends (K.taken out.old) (K.taken out.new)
        (front.now ++ text.now ++ end.now)) }
    ensures err { OnErr result (AppendsPart (K.taken out.old) (K.taken out.new)
        (front.now ++ text.now ++ end.now)) }
    ensures cause { HasCause (K.faults out.old) (K.faults out.new) result }
{
    write_all(out, front)?;
    write_all(out, text)?;
    write_all(out, end)
}

// Whether a byte stands for itself between quotation marks.
fn is_text_byte(byte: u8) -> bool
    ensures { result ≡ is_text_byte byte }
{
    (33..=126).contains(&byte) && byte != b'"'
}

/// Whether all bytes stand for themselves between quotation marks.
pub fn are_text_bytes(bytes: &[u8]) -> bool
    ensures { result ≡ list_all is_text_byte bytes.now }
{
    bytes.iter().all(|b| is_text_byte(*b))
}

/// Writes the front of a line, a text between quotation marks, or as bytes where it has a byte that doesn't stand for itself, and
/// the end of the line.
pub fn write_literal<K: Sink>(
    out: &mut K,
    mut front: Line,
    text: &[u8],
    end: &[u8],
) -> Result<(), SinkFault>
    requires front { length front ≤ 500 }
    requires end { length end.now ≤ 500 }
    ensures ok { OnOk result (Appends (K.taken out.old) (K.taken out.new)
        (front ++ literal_text text.now ++ end.now)) }
    ensures err { OnErr result (AppendsPart (K.taken out.old) (K.taken out.new)
        (front ++ literal_text text.now ++ end.now)) }
    ensures cause { HasCause (K.faults out.old) (K.faults out.new) result }
{
    if !are_text_bytes(text) {
        front.push(b"x");
        return write_given(out, front.as_slice(), text, end);
    }
    front.push(b"\"");
    let mut behind = Line::new();
    behind.push(b"\"");
    behind.push(end);
    write_text(out, front.as_slice(), text, behind.as_slice())
}
