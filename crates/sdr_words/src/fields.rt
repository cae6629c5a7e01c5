// The fields of a line.
ghost use Rattle.std.specs.Prelude.{◌≡◌, ◌≢◌, slice_index, MatchOption, [], ◌∷◌, ◌==◌};
ghost use Rattle.std.specs.List.{list_all};
ghost use Rattle.bstr.specs.Find.{IsFirstByte, is_byte};
ghost use Rattle.sdr_words.specs.Fields.{fields_of};
ghost use Rattle.sdr_words.specs.Script.{is_line_byte, is_skipped};

// What stands behind the spaces at the front.
fn past_spaces(line: &[u8]) -> &[u8]
    ensures fields { fields_of result.now ≡ fields_of line.now }
    ensures first { slice_index result.now 0 ≢ 32 }
{
    let mut rest = line;
    while let [b' ', after @ ..] = rest {
        rest = after;
    }
    rest
}

// The place of the first space. A field is short, so its bytes are looked at one by one.
fn first_space(rest: &[u8]) -> Option<usize>
    ensures { IsFirstByte (is_byte 32) rest.now result }
{
    for (at, byte) in rest.iter().enumerate() {
        if *byte == b' ' {
            return Some(at);
        }
    }
    None
}

/// The first field of a part of a line, and what stands behind it.
#[tactic(auto, using(crate::proofs::FieldsLemmas::cutting))]
pub fn cut_field(line: &[u8]) -> Option<(&[u8], &[u8])>
    ensures { MatchOption result (fields_of line.now ≡ [])
        (λ cut. fields_of line.now ≡ cut.0.now ∷ fields_of cut.1.now) }
{
    let rest = past_spaces(line);
    if rest.is_empty() {
        return None;
    }
    match first_space(rest) {
        Some(end) => Some((&rest[..end], &rest[end..])),
        None => Some((rest, &[])),
    }
}

/// Whether all bytes may stand in a line.
pub fn are_line_bytes(line: &[u8]) -> bool
    ensures { result ≡ list_all is_line_byte line.now }
{
    for byte in line {
        if !(32..=126).contains(byte) {
            return false;
        }
    }
    true
}

fn are_spaces(line: &[u8]) -> bool
    ensures { result ≡ list_all (λ b. b == 32) line.now }
{
    line.iter().all(|b| *b == b' ')
}

/// Whether a line is skipped.
pub fn is_skipped(line: &[u8]) -> bool
    ensures { result ≡ is_skipped line.now }
{
    are_spaces(line) || line[0] == b'#'
}
