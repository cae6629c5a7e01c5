// Two daemons, each of which is held until the other has come so far: none of them can run first to its end.
use crate::runs::{has, status_of};
use sdr_base::{Gate, MemorySink};
use sdr_shell::DONE;
use std::sync::atomic::{AtomicBool, Ordering};
use std::thread::yield_now;

// The first daemon holds a grant of all heap space. The ticket of the second waits until that is given back.
const SCRIPT: &[u8] =
    b"1: begin\n1: set_maximum out heap 100\n1: t = request out 0 0 100 1 0\n1: end\n\
    2: begin\n2: u = request out 0 0 60 1 0\n2: end\n2: await u\n\
    1: begin\n1: shred t\n1: end\n";

// The lines before which the gate holds a daemon, or lets one go on.
const BEGIN_OF_SECOND: u64 = 5;

const AWAIT: u64 = 8;

const SECOND_BEGIN_OF_FIRST: u64 = 9;

// How often the gate looks before it gives up.
const TURNS: u32 = 100_000_000;

/// Holds the begin of daemon 2 until daemon 1 comes to its second begin, and that one until daemon 2 comes to its `await`.
#[derive(Drop)]
struct EachForTheOther {
    first_is_back: AtomicBool,
    second_awaits: AtomicBool,
    gave_up: AtomicBool,
}

impl EachForTheOther {
    fn new() -> EachForTheOther {
        EachForTheOther {
            first_is_back: AtomicBool::new(false),
            second_awaits: AtomicBool::new(false),
            gave_up: AtomicBool::new(false),
        }
    }

    // Waits until it has come, and notes where it gives up.
    fn hold(&self, come: &AtomicBool) {
        for _ in 0..TURNS {
            if come.load(Ordering::SeqCst) {
                return;
            }
            yield_now();
        }
        self.gave_up.store(true, Ordering::SeqCst);
    }
}

impl Gate for EachForTheOther {
    fn before(&self, _daemon: u8, line: u64) {
        match line {
            BEGIN_OF_SECOND => self.hold(&self.first_is_back),
            SECOND_BEGIN_OF_FIRST => {
                self.first_is_back.store(true, Ordering::SeqCst);
                self.hold(&self.second_awaits);
            }
            AWAIT => self.second_awaits.store(true, Ordering::SeqCst),
            _ => (),
        }
    }
}

#[test]
fn daemons_run_side_by_side(rt: HostRuntime) {
    for totals in [false, true] {
        let gate = EachForTheOther::new();
        let mut output = MemorySink::new(rt.alloc(), Vec::new(rt.alloc()));
        let status = status_of(&rt, rt.alloc(), totals, SCRIPT, 0, &mut output, &gate).map(|(
            status,
            _,
        )| status);
        assert_eq!(rt; status, Some(DONE));
        assert!(rt; !gate.gave_up.load(Ordering::SeqCst));
        assert!(rt; has(output.taken(), b" 2 awarded 2\n"));
        assert!(rt; has(output.taken(), b" 1 leaves done\n"));
        assert!(rt; has(output.taken(), b" 2 leaves done\n"));
        assert_eq!(rt; has(output.taken(), b"\ntotals "), totals);
    }
}
