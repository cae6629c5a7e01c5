// What a station tells beside its answers.
use crate::disks::formatted;
use sdr_base::{Move, NoMedia, Refusal, Stop};
use sdr_disk::MemoryDisk;
use sdr_model::{Call, Reply};
use sdr_station::{Closed, Station};
use std::alloc::Global;
use zco_acct::{Compares, Notice};

// The room for moves that is told of a new object, what a look says, the answers of a transaction that makes the object and
// whether that is its only move, and how many lines were put back.
type Seen = (
    Result<u64, Stop>,
    Result<bool, Stop>,
    Option<(Reply, Closed)>,
    bool,
    u64,
);

// What a station answers to a transaction that makes a raw object of five bytes. `None`: it is stopped.
fn made(station: &mut Station<MemoryDisk, NoMedia, Compares>) -> Option<(Reply, Closed)> {
    station.begin().ok()?;
    if station.depth() == 0 {
        return None;
    }
    let reply = station.call(&Call::Malloc(5), &mut [0; 4096]);
    if station.depth() == 0 {
        return None;
    }
    Some((reply, station.end().ok()?))
}

fn seen(alloc: Global) -> Option<Seen> {
    let disk = formatted(alloc)?;
    let mut station = match Station::open(alloc, disk, NoMedia::new(), Notice::new(Compares)) {
        Ok(station) => station,
        Err(_) => return None,
    };
    let look = station.look(3);
    let room = station.room_for(&Call::Malloc(5));
    let answers = made(&mut station);
    let moves = station.moves() == TAKEN.as_slice();
    Some((room, look, answers, moves, station.restored()))
}

const TAKEN: [Move; 1] = [Move::Took {
    need: 13,
    addr: 2056,
}];

#[test]
fn a_station_tells_its_moves_their_room_and_that_no_ticket_is_there(rt: HostRuntime) {
    let look = Err(Stop::Refused(Refusal::BadTicket { ticket: 3 }));
    let answers = Some((Reply::At { addr: 2056 }, Closed::Ended));
    assert_eq!(rt; seen(rt.alloc()), Some((Ok(1), look, answers, true, 0)));
}
