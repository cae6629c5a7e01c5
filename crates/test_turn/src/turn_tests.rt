use super::*;
use sdr_turn::Turn;
use std::test::*;
use std::time::{Duration, Instant};

#[test]
fn two_seats_are_served_as_they_drew(rt: HostRuntime) -> Result<(), Fail> {
    let Ok((turn, mut seats)) = Turn::new(rt.alloc(), Tally::new(rt.alloc()), 2) else {
        panic!(rt; "no memory")
    };
    let (Some(mut other), Some(mut one)) = (seats.pop(), seats.pop()) else {
        unreachable!()
    };
    assert_eq!(rt; [one.place(), other.place()], [0, 1]);
    let Some(rows) = take_turns(&rt, &turn, &mut one, &mut other) else {
        panic!(rt; "a seat drew 2^40 numbers")
    };
    // They are closed in any order.
    seats.push_reserved(other);
    seats.push_reserved(one);
    let tally = turn.close(seats);
    assert_eq!(rt; rows.numbers, [1, 2]);
    assert_eq!(rt; rows.front_before, 0);
    assert_eq!(rt; rows.fronts_between, [1, 1]);
    assert_eq!(rt; rows.found, 1);
    assert_eq!(rt; tally.turns, 2);
    assert!(rt; tally.lines.iter().map(|line| line.number).eq([1, 2]));
    assert!(rt; tally.lines.iter().map(|line| line.by).eq([0, 1]));
    Ok(())
}

// Whether the lines have the numbers from 1 up.
fn is_numbered(tally: &Tally) -> bool {
    let numbers = tally.lines.iter().map(|line| line.number);
    numbers.eq(1..tally.turns.saturating_add(1))
}

// How many turns the seat took.
fn turns_by(tally: &Tally, by: u64) -> u64 {
    tally.lines.iter().filter(|line| line.by == by).count() as u64
}

/// One thread, two threads of fifty turns each, and more seats than processors up to the most that a lock has.
#[test]
fn threads_take_turns(rt: HostRuntime) -> Result<(), Fail> {
    for (count, turns) in [(1, 50), (2, 50), (16, 50), (64, 20)] {
        let bounds = Bounds {
            turns,
            start: Instant::now(&rt)?,
            time: Duration::from_secs(60),
        };
        let Some(tally) = serve_many(&rt, rt.alloc(), count, &bounds) else {
            panic!(rt; "no memory")
        };
        assert_eq!(rt; tally.turns, count * turns);
        assert!(rt; is_numbered(&tally));
        for by in 0..count {
            assert_eq!(rt; turns_by(&tally, by), turns, "seat {by}");
        }
    }
    Ok(())
}

/// As many turns of sixteen threads as there are in ten seconds.
#[test]
fn sixteen_threads_take_many_turns(rt: HostRuntime) -> Result<(), Fail> {
    let bounds = Bounds {
        turns: 200_000,
        start: Instant::now(&rt)?,
        time: Duration::from_secs(10),
    };
    let Some(tally) = serve_many(&rt, rt.alloc(), 16, &bounds) else {
        panic!(rt; "no memory")
    };
    assert!(rt; is_numbered(&tally));
    for by in 0..16 {
        assert!(rt; turns_by(&tally, by) >= 1, "seat {by}");
    }
    Ok(())
}
