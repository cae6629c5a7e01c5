// The journal of the tests.
use sdr_base::{Bytes, Items, Move, NoMemory, Reason};
use sdr_board::Totals;
use sdr_model::{Answer, Call, Close, Entry, Event, Journal, Leave, Reply, Said, Saids, What};
use std::alloc::Global;

// What a transaction says that takes two blocks and gives one back.
fn two_taken_one_given(alloc: Global) -> Result<Saids, NoMemory> {
    let moves = Items::copied(
        alloc,
        &[
            Move::Took {
                need: 8,
                addr: 2056,
            },
            Move::Took {
                need: 8,
                addr: 2072,
            },
            Move::Gave { addr: 2056 },
        ],
    )?;
    let mut said = Items::new(alloc);
    said.push(Said {
        line: 1,
        event: Event::Say(Call::Malloc(8)),
        answer: Answer::Reply(Reply::Done),
        bytes: Bytes::new(alloc),
        moves,
    })?;
    Ok(said)
}

fn work(alloc: Global, close: Close) -> Result<What, NoMemory> {
    let said = two_taken_one_given(alloc)?;
    Ok(What::Work { said, close })
}

/// The entry of a place, from 0.
pub fn entry_at(alloc: Global, place: u32) -> Result<Entry, NoMemory> {
    let what = match place % 8 {
        0 => work(alloc, Close::Ended)?,
        1 => work(alloc, Close::Cancelled(Reason::Asked))?,
        2 => work(alloc, Close::Exited)?,
        3 => work(alloc, Close::Faulted)?,
        4 => What::Waits { ticket: 1 },
        5 => What::Awarded { ticket: 1 },
        6 => What::Stalled { ticket: 1 },
        _ => What::Leaves { leave: Leave::Done },
    };
    Ok(Entry {
        number: u64::from(place) + 1,
        daemon: 1,
        begun: 0,
        done: 0,
        what,
    })
}

/// The first so many entries.
pub fn first_entries(alloc: Global, count: u32) -> Result<Journal, NoMemory> {
    let mut journal = Items::new(alloc);
    for place in 0..count {
        journal.push(entry_at(alloc, place)?)?;
    }
    Ok(journal)
}

/// Their totals, from their count alone.
pub fn totals_of_first(count: u64) -> Totals {
    let rounds = count / 8;
    let more = count % 8;
    let ended = rounds + more.min(1);
    Totals {
        entries: count,
        number: count,
        ended,
        cancelled: rounds + more.saturating_sub(1).min(1),
        exited: rounds + more.saturating_sub(2).min(1),
        faulted: rounds + more.saturating_sub(3).min(1),
        looks: 3 * rounds + more.saturating_sub(4).min(3),
        left: rounds,
        taken: 2 * ended,
        given: ended,
    }
}
