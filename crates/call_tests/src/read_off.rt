//! Launches that are read off a plan.
use cycle_encoding::{Encoding, VarPlan};
use items::{Items, NoMemory};
use schedule_meaning::{Launch, Schedule, To};
use schedule_reader::read_off;
use std::alloc::Global;
use std::test::Fail;

/// What four variables mean.
const LAUNCHES: [Launch; 4] = [
    Launch {
        cycle: 1,
        slot: 0,
        row: 7,
        to: To::Pool,
    },
    Launch {
        cycle: 0,
        slot: 0,
        row: 8,
        to: To::Pool,
    },
    Launch {
        cycle: 1,
        slot: 0,
        row: 6,
        to: To::Pool,
    },
    Launch {
        cycle: 0,
        slot: 3,
        row: 9,
        to: To::Pool,
    },
];

/// The launches where the values of variables 1, 3 and 4 are true, and 5 means none.
fn read(alloc: Global) -> Result<Schedule, NoMemory> {
    let plan = VarPlan::new(Encoding::Wide, 2, Items::from_slice(alloc, &LAUNCHES)?, 5);
    read_off(alloc, &plan, &[true, false, true, true, true])
}

#[test]
fn reads_true_launches_in_order(rt: HostRuntime) -> Result<(), Fail> {
    let schedule = read(rt.alloc())?;
    let wanted = [LAUNCHES[3], LAUNCHES[2], LAUNCHES[0]];
    assert!(rt; schedule.launches.as_slice() == wanted.as_slice());
    Ok(())
}
