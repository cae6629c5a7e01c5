// What no clause and no script shows: that requests are answered with ample memory.
ghost use Rattle.std.specs.Prelude.{◌≡◌};

use mem_machine::Plain;
use sdr_base::{NoMemory, Refusal};
use sdr_model::{Answer, Close, Event, Reply};
use std::alloc::Global;

// The answers to a request and a transaction of daemon 3, and to events out of their place.
const ANSWERS: [Answer; 5] = [
    Answer::Lock { number: 1 },
    Answer::Reply(Reply::Refused(Refusal::NotBegun)),
    Answer::Reply(Reply::Refused(Refusal::NotBegun)),
    Answer::Lock { number: 1 },
    Answer::Closed(Close::Ended),
];

fn answers(plain: &mut Plain) -> Result<[Answer; 5], NoMemory>
    requires { plain.old.events ≡ 0 }
{
    Ok([
        plain.event(3, &Event::Request)?.answer,
        plain.event(3, &Event::End)?.answer,
        plain.event(4, &Event::Begin)?.answer,
        plain.event(3, &Event::Begin)?.answer,
        plain.event(3, &Event::End)?.answer,
    ])
}

fn answers_of(alloc: Global) -> Result<[Answer; 5], NoMemory> {
    let mut plain = Plain::new(alloc, &[3])?;
    answers(&mut plain)
}

#[test]
fn a_request_draws_a_number_that_a_begin_takes_up(rt: HostRuntime) {
    assert_eq!(rt; answers_of(rt.alloc()), Ok(ANSWERS));
}
