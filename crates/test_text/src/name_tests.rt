// What a name holds, by the last answer to a statement that binds it.
use crate::scripts::script_of;
use sdr_base::NoMemory;
use sdr_model::{Answer, Call, Event, Reply, ScriptStep};
use sdr_words::{Bindings, ScriptError};
use std::alloc::Global;

// Answers, and what a name holds behind each.
const ROWS: [(Answer, u64); 8] = [
    (
        Answer::Reply(Reply::Pair {
            first: 1,
            second: 8,
        }),
        8,
    ),
    (Answer::Reply(Reply::At { addr: 24 }), 24),
    (Answer::Reply(Reply::Value { value: 25 }), 25),
    (
        Answer::Reply(Reply::Named {
            count: 1,
            kind: 2,
            addr: 26,
        }),
        26,
    ),
    (
        Answer::Reply(Reply::Ticket {
            number: 27,
            granted: false,
        }),
        27,
    ),
    (Answer::Reply(Reply::Bytes { count: 2 }), 0),
    (Answer::Reply(Reply::Done), 0),
    (Answer::Lock { number: 5 }, 0),
];

// The address that a step reads.
fn address_read(
    alloc: Global,
    names: &Bindings,
    step: &ScriptStep,
) -> Result<Option<u64>, NoMemory> {
    match names.event(alloc, step)? {
        Event::Say(Call::StringRead(addr)) => Ok(Some(addr)),
        _ => Ok(None),
    }
}

// The first row behind which the name that one step binds and the other one reads holds something else.
// Before all, it holds 0.
fn wrong_row(
    alloc: Global,
    binds: &ScriptStep,
    reads: &ScriptStep,
) -> Result<Option<usize>, NoMemory> {
    let mut names = Bindings::new(alloc);
    if address_read(alloc, &names, reads)? != Some(0) {
        return Ok(Some(ROWS.len()));
    }
    for (row, (answer, addr)) in ROWS.iter().enumerate() {
        names.bind(alloc, binds, answer)?;
        if address_read(alloc, &names, reads)? != Some(*addr) {
            return Ok(Some(row));
        }
    }
    Ok(None)
}

// The first wrong row, of a script of two steps.
fn wrong_name(alloc: Global) -> Result<Option<usize>, ScriptError> {
    let script = script_of(alloc, b"2: g = find \"greeting\"\n2: string_read g\n")?;
    match script.as_slice() {
        [find, read] => Ok(wrong_row(alloc, find, read)?),
        _ => Ok(Some(ROWS.len())),
    }
}

#[test]
fn a_name_holds_what_its_last_answer_gave(rt: HostRuntime) {
    assert!(rt; matches!(wrong_name(rt.alloc()), Ok(None)));
}
