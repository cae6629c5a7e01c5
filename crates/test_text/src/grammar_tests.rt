// Inputs that are read, and lines that are refused; the grammar, by examples from outside.
use crate::scripts::script_of;
use sdr_base::{Bytes, MemorySource};
use sdr_model::{Arg, ScriptStep};
use sdr_words::{ScriptError, read_script};
use std::alloc::{AllocError, Global};

// Inputs that are read.
const READ: [&[u8]; 26] = [
    b"",
    b"\n",
    b"1: begin",
    b"1: begin\n1: string \"hi\"\n1: end\n",
    b"16: end",
    b"  3:   s  =  string   \"\"  \n",
    b"# any text, \" too\n1: end\n   \n\n",
    b"1: string_read 0",
    b"1: string_read 18446744073709551615",
    b"1: catlg \"!#~\" 4294967295 18446744073709551615",
    b"1: abcdefghijklmnopqrstuvwxyzABCD_ = end",
    b"1: begin = begin\n1: string_read begin",
    b"2: g = find \"greeting\"\n2: string_read g\n",
    b"1: in = end\n2: end\n1: catlg \"n\" 1 in",
    b"1: string x",
    b"1: string x00ff",
    b"1: string f61*0",
    b"1: write 8 0 f00*4096",
    b"1: find \"find\"",
    b"1: occupancy in file",
    b"1: set_maximum out heap 7",
    b"1: insert_ordered 8 9 bytes",
    b"1: search 8 9 length",
    b"1: request out 1 2 3 255 0",
    b"1: append_extent 1 2 3 4 5",
    b"1: await 0",
];

// Lines that break a rule.
const BAD_LINES: [&[u8]; 35] = [
    b"1: string \"hi",
    b"1: string hi\"",
    b"1: string \"",
    b"1: string \"h\"i\"",
    b"1: string \"h i\"",
    b"1: string hi",
    b"1: string y00",
    b"1: end\r",
    b"# a\tb",
    b"\x00",
    b"# \x7f",
    b"# \xc3\xa9",
    b" # no comment",
    b"1: frob",
    b"1: Begin",
    b"1: string_read 18446744073709551616",
    b"1: string_read 00",
    b"1: string_read 01",
    b"1: string_read +1",
    b"1: string_read \"1\"",
    b"1: catlg \"n\" 4294967296 0",
    b"0: end",
    b"17: end",
    b"01: end",
    b"1 : end",
    b"1:end",
    b": end",
    b"1 end",
    b"1:",
    b"1: s =",
    b"1: = = end",
    b"1: abcdefghijklmnopqrstuvwxyzABCDE_ = end",
    b"1: 9a = end",
    b"1: a-b = end",
    b"1: s = string_read s",
];

// Lines whose literal breaks a rule.
const BAD_LITERALS: [&[u8]; 15] = [
    b"1: string x6",
    b"1: string x686",
    b"1: string x4A",
    b"1: string X6869",
    b"1: string x6g",
    b"1: string f61*4097",
    b"1: string f61*04",
    b"1: string f61*",
    b"1: string f61",
    b"1: string f6*1",
    b"1: string f6161*1",
    b"1: string f4A*1",
    b"1: string F61*1",
    b"1: string f61*n",
    b"1: string 8",
];

// Lines with a word in the place of another.
const BAD_WORDS: [&[u8]; 11] = [
    b"1: occupancy file in",
    b"1: occupancy inbound file",
    b"1: occupancy in files",
    b"1: occupancy IN file",
    b"1: occupancy 0 file",
    b"1: search 8 9 by",
    b"1: search 8 9 Bytes",
    b"1: malloc \"8\"",
    b"1: malloc x08",
    b"1: request in 1 2 3 256 0",
    b"1: request in 1 2 3 0 256",
];

// Lines with too few fields or too many.
const BAD_COUNTS: [&[u8]; 20] = [
    b"1: begin 1",
    b"1: end \"\"",
    b"1: string",
    b"1: string \"a\" \"b\"",
    b"1: string_read",
    b"1: string_read 1 2",
    b"1: catlg \"n\" 1",
    b"1: catlg \"n\" 1 2 3",
    b"1: s = catlg \"n\" 1 2 3",
    b"1: s = catlg \"n\" 1 2 3 4",
    b"1: find",
    b"1: find \"a\" \"b\"",
    b"1: await",
    b"1: cancel 1",
    b"1: append_extent 1 2 3 4",
    b"1: append_extent 1 2 3 4 5 6",
    b"1: request out 1 2 3 4",
    b"1: request out 1 2 3 4 5 6",
    b"1: occupancy in",
    b"1: occupancy in file 1",
];

// Inputs, and their first refused line, by its number over all lines.
const NUMBERED: [(&[u8], u64); 7] = [
    (b"1: begin\n1: frob\n1: frob\n", 2),
    (b"# one\n\n  \n1: frob", 4),
    (b"2: g = find \"x\"\n1: string_read g", 2),
    (b"1: string_read g\n1: g = end", 1),
    (b"1: t = end\n1: catlg \"n\" t 0", 2),
    (b"1: end\n1: end\n\x00\n", 3),
    (b"1: t = end\n1: request in 1 2 3 t 0", 2),
];

// The line in which an input is refused, 0 where it is read.
fn refused_line(alloc: Global, input: &[u8]) -> Result<u64, ScriptError> {
    match script_of(alloc, input) {
        Ok(_) => Ok(0),
        Err(ScriptError::Line { line }) => Ok(line),
        Err(error) => Err(error),
    }
}

// The first of these inputs that isn't refused in this line; where that is 0, the first that isn't read.
fn wrong_input<'a>(alloc: Global, inputs: &[&'a [u8]], line: u64) -> Option<&'a [u8]> {
    for input in inputs {
        if refused_line(alloc, input).ok() != Some(line) {
            return Some(input);
        }
    }
    None
}

// The first input that isn't refused in its line.
fn wrong_number(alloc: Global) -> Option<usize> {
    for (row, (input, line)) in NUMBERED.iter().enumerate() {
        if refused_line(alloc, input).ok() != Some(*line) {
            return Some(row);
        }
    }
    None
}

// A front, so many bytes `#` and a last piece; and the line in which such an input is refused, 0 where it is
// read. An input has at most 1,048,576 bytes.
const LONG: [(&[u8], usize, &[u8], u64); 6] = [
    (b"", 1_048_576, b"", 0),
    (b"", 1_048_576, b"#", 1),
    (b"", 1_048_576, b"\n", 1),
    (b"", 1_048_575, b"\n#", 2),
    (b"1: end\n", 1_048_576, b"\n1: frob", 2),
    (b"1: frob\n", 1_048_576, b"", 1),
];

// The bytes of a long input.
fn long_input(
    alloc: Global,
    front: &[u8],
    length: usize,
    last: &[u8],
) -> Result<Vec<u8>, AllocError> {
    let mut input = Vec::from_slice(alloc, front)?;
    input.extend_from_slice(&vec![in alloc; b'#'; length]?)?;
    input.extend_from_slice(last)?;
    Ok(input)
}

// The first long input that isn't refused in its line.
fn wrong_length(alloc: Global) -> Result<Option<usize>, AllocError> {
    for (row, (front, length, last, line)) in LONG.iter().enumerate() {
        let input = long_input(alloc, front, *length, last)?;
        if refused_line(alloc, &input).ok() != Some(*line) {
            return Ok(Some(row));
        }
    }
    Ok(None)
}

// Whether a source of 5,000 bytes whose second read fails ends the reading as a fault of the input.
fn ends_at_a_fault(alloc: Global) -> Result<bool, AllocError> {
    let input = Bytes::of(vec![in alloc; b'#'; 5000]?);
    let mut source = MemorySource::new(input, [2].to_vec(alloc)?);
    Ok(matches!(read_script(alloc, &mut source), Err(ScriptError::Input)))
}

#[test]
fn an_input_is_read_or_refused_at_the_first_line_that_breaks_a_rule(rt: HostRuntime) {
    assert_eq!(rt; wrong_input(rt.alloc(), &READ, 0), None);
    assert_eq!(rt; wrong_input(rt.alloc(), &BAD_LINES, 1), None);
    assert_eq!(rt; wrong_input(rt.alloc(), &BAD_LITERALS, 1), None);
    assert_eq!(rt; wrong_input(rt.alloc(), &BAD_WORDS, 1), None);
    assert_eq!(rt; wrong_input(rt.alloc(), &BAD_COUNTS, 1), None);
}

#[test]
fn a_refused_line_has_its_number_and_a_byte_too_many_refuses_its_line(rt: HostRuntime) {
    assert_eq!(rt; wrong_number(rt.alloc()), None);
    assert_eq!(rt; wrong_length(rt.alloc()), Ok(None));
    assert_eq!(rt; ends_at_a_fault(rt.alloc()), Ok(true));
}

/// An argument as a literal.
#[derive(Clone, Copy)]
enum Given<'a> {
    Number(u64),
    Name(&'a [u8]),
    Text(&'a [u8]),
}

fn is_given(arg: &Arg, want: Given<'_>) -> bool {
    match want {
        Given::Number(wanted) => matches!(arg, Arg::Number(number) if *number == wanted),
        Given::Name(wanted) => matches!(arg, Arg::Named(name) if name.as_slice() == wanted),
        Given::Text(wanted) => matches!(arg, Arg::Text(text) if text.as_slice() == wanted),
    }
}

// Whether these are the arguments, and no more.
fn are_given(args: &[Arg], wanted: &[Given<'_>]) -> bool {
    for (arg, want) in args.iter().zip(wanted.iter()) {
        if !is_given(arg, *want) {
            return false;
        }
    }
    args.len() == wanted.len()
}

// A line, daemon, name, place of a verb, and arguments.
type Row<'a> = (u64, u8, &'a [u8], u64, &'a [Given<'a>]);

fn is_row(step: &ScriptStep, row: &Row<'_>) -> bool {
    let (line, daemon, name, verb, args) = *row;
    step.line == line
        && step.daemon == daemon
        && step.name.as_slice() == name
        && step.verb == verb
        && are_given(step.args.as_slice(), args)
}

// An input, and the steps that it spells.
const SPELLED: [(&[u8], &[Row<'static>]); 7] = [
    (
        b"\n7: k = catlg \"ab\" 3 4\n7: catlg x 0 k\n",
        &[
            (
                2,
                7,
                b"k",
                46,
                &[Given::Text(b"ab"), Given::Number(3), Given::Number(4)],
            ),
            (
                3,
                7,
                b"",
                46,
                &[Given::Text(b""), Given::Number(0), Given::Name(b"k")],
            ),
        ],
    ),
    (
        b"1: string \"hi!\"",
        &[(1, 1, b"", 11, &[Given::Text(b"hi!")])],
    ),
    (b"1: string \"\"", &[(1, 1, b"", 11, &[Given::Text(b"")])]),
    (
        b"1: string x00ff10",
        &[(1, 1, b"", 11, &[Given::Text(b"\x00\xff\x10")])],
    ),
    (b"1: string x", &[(1, 1, b"", 11, &[Given::Text(b"")])]),
    (
        b"1: string fa0*3",
        &[(1, 1, b"", 11, &[Given::Text(b"\xa0\xa0\xa0")])],
    ),
    (b"1: string f61*0", &[(1, 1, b"", 11, &[Given::Text(b"")])]),
];

fn are_rows(steps: &[ScriptStep], rows: &[Row<'_>]) -> bool {
    for (step, row) in steps.iter().zip(rows.iter()) {
        if !is_row(step, row) {
            return false;
        }
    }
    steps.len() == rows.len()
}

// The first input that spells other steps.
fn wrong_steps(alloc: Global) -> Result<Option<usize>, ScriptError> {
    for (row, (input, steps)) in SPELLED.iter().enumerate() {
        let script = script_of(alloc, input)?;
        if !are_rows(script.as_slice(), steps) {
            return Ok(Some(row));
        }
    }
    Ok(None)
}

#[test]
fn a_step_has_its_line_its_daemon_its_name_its_verb_and_the_bytes_of_its_literals(rt: HostRuntime) {
    assert!(rt; matches!(wrong_steps(rt.alloc()), Ok(None)));
}
