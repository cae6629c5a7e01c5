// The steps of a load, by counts from outside: memory is ample here.
ghost use Rattle.std.specs.Prelude.{◌≤◌};

use sdr_base::NoMemory;
use sdr_load::LoadSteps;
use std::alloc::Global;

// Whether a load of so many rounds has so many steps.
fn has_steps(alloc: Global, rounds: u64, count: usize) -> Result<bool, NoMemory>
    requires { rounds ≤ 10_000 }
{
    let mut steps = LoadSteps::new(alloc, rounds)?;
    for _ in 0..count {
        if steps.next().is_none() {
            return Ok(false);
        }
        steps.pass()?;
    }
    Ok(steps.next().is_none())
}

#[test]
fn a_load_has_four_steps_then_six_a_round_and_ten_where_the_oldest_goes(rt: HostRuntime) {
    assert!(rt; has_steps(rt.alloc(), 0, 4).is_ok_and(|has| has));
    assert!(rt; has_steps(rt.alloc(), 1, 10).is_ok_and(|has| has));
    assert!(rt; has_steps(rt.alloc(), 11, 70).is_ok_and(|has| has));
    assert!(rt; has_steps(rt.alloc(), 12, 80).is_ok_and(|has| has));
    assert!(rt; has_steps(rt.alloc(), 300, 2960).is_ok_and(|has| has));
}
