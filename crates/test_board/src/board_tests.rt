use super::*;
use sdr_board::{Board, Totals};
use std::test::*;
use std::time::{Duration, Instant};

// The totals with these numbers, in the order in which they are printed.
fn row(numbers: [u64; 10]) -> Totals {
    let [
        entries,
        number,
        ended,
        cancelled,
        exited,
        faulted,
        looks,
        left,
        taken,
        given,
    ] = numbers;
    Totals {
        entries,
        number,
        ended,
        cancelled,
        exited,
        faulted,
        looks,
        left,
        taken,
        given,
    }
}

#[test]
fn totals_count_each_kind_of_entry(rt: HostRuntime) -> Result<(), Fail> {
    for (count, want) in [
        (0, [0, 0, 0, 0, 0, 0, 0, 0, 0, 0]),
        (1, [1, 1, 1, 0, 0, 0, 0, 0, 2, 1]),
        (2, [2, 2, 1, 1, 0, 0, 0, 0, 2, 1]),
        (5, [5, 5, 1, 1, 1, 1, 1, 0, 2, 1]),
        (8, [8, 8, 1, 1, 1, 1, 3, 1, 2, 1]),
        (17, [17, 17, 3, 2, 2, 2, 6, 2, 6, 3]),
    ] {
        let journal = first_entries(rt.alloc(), count)?;
        assert_eq!(rt; Totals::of(journal.as_slice()), row(want), "of {count}");
        assert_eq!(rt; totals_of_first(u64::from(count)), row(want), "of {count}");
    }
    Ok(())
}

#[test]
fn a_pass_reads_what_was_published(rt: HostRuntime) -> Result<(), Fail> {
    let (board, mut writer, mut pass) = Board::new(rt.alloc())?;
    assert_eq!(rt; board.read(&mut pass), totals_of_first(0));
    let journal = first_entries(rt.alloc(), 8)?;
    board.publish(&mut writer, journal.as_slice());
    board.publish(&mut writer, journal.as_slice());
    let mut split = board.split(&mut writer);
    assert_eq!(rt; board.read(&mut split), totals_of_first(8));
    assert_eq!(rt; board.read(&mut pass), totals_of_first(8));
    Ok(())
}

#[test]
fn a_joined_pass_reads_no_less_than_either(rt: HostRuntime) -> Result<(), Fail> {
    let (board, mut writer, mut pass) = Board::new(rt.alloc())?;
    board.publish(&mut writer, first_entries(rt.alloc(), 3)?.as_slice());
    let latest = board.split(&mut writer);
    board.join(&mut pass, latest);
    assert_eq!(rt; board.read(&mut pass), totals_of_first(3));
    Ok(())
}

/// As many reads of three readers as there are in a second at most.
#[test]
fn readers_see_the_totals_of_first_entries(rt: HostRuntime) -> Result<(), Fail> {
    let bounds = Bounds {
        entries: 100_000,
        start: Instant::now(&rt)?,
        time: Duration::from_secs(1),
    };
    let Some((first, second, third, last)) = readers_beside_writer(&rt, rt.alloc(), &bounds) else {
        panic!(rt; "no memory")
    };
    for tally in [first, second, third] {
        assert_eq!(rt; tally.wrong, None);
        assert!(rt; tally.reads >= 1);
    }
    assert_eq!(rt; last, totals_of_first(last.entries));
    Ok(())
}
