//! The clock step by step: what each call and each tick comes to.

ghost use Rattle.std.specs.Prelude.{◌≡◌, IfOk, true};
ghost use Rattle.spec_lists.specs.Tables.{empty_table};
ghost use Rattle.spec_kernel.specs.PlainClock.{are_new_cyclics, greatest_cyclic};

use it_types::{CycConf, CycDecl, E_ID, E_NOEXS, E_OK, Er, List, NoMemory, ObjId};
use k_time::Clock;
use std::alloc::Global;
use std::process::Abort;
use std::test::*;

const RUNS: CycDecl = CycDecl {
    id: 8,
    period: 2,
    phase: 1,
    on: true,
};

const STANDS: CycDecl = CycDecl {
    id: 1,
    period: 3,
    phase: 0,
    on: false,
};

// Handler 8 with a period of 2 is on, and handler 1 with a period of 3 isn't.
fn two_handlers(alloc: Global) -> Result<CycConf, NoMemory>
    ensures { IfOk result (λ c. are_new_cyclics (empty_table greatest_cyclic) c.cycs ≡ true) }
{
    Ok(CycConf {
        cycs: List::from_vec(vec![in alloc; RUNS, STANDS]?),
    })
}

// At the next tick these handlers come due.
fn expect_due(rt: &impl Abort, clock: &mut Clock, due: &[ObjId]) {
    assert!(rt; clock.now() < 1 << 61);
    let tick = clock.now() + 1;
    let came_due = clock.tick();
    assert_eq!(rt; came_due.as_slice(), due, "{tick}");
    assert_eq!(rt; clock.now(), tick);
}

// A handler is started.
fn expect_started(rt: &impl Abort, clock: &mut Clock, id: u32, code: Er) {
    assert!(rt; clock.now() < 1 << 61);
    assert_eq!(rt; clock.sta_cyc(ObjId(id)), code);
}

#[test]
fn handlers_come_due_by_rising_id(rt: HostRuntime) -> Result<(), Fail> {
    let conf = two_handlers(rt.alloc())?;
    let mut clock = Clock::open(rt.alloc(), &conf)?;
    assert_eq!(rt; clock.now(), 0);
    expect_due(&rt, &mut clock, &[]);
    expect_started(&rt, &mut clock, 1, E_OK);
    expect_due(&rt, &mut clock, &[ObjId(8)]);
    expect_due(&rt, &mut clock, &[]);
    expect_due(&rt, &mut clock, &[ObjId(8)]);
    expect_due(&rt, &mut clock, &[ObjId(1)]);
    assert_eq!(rt; clock.stp_cyc(ObjId(8)), E_OK);
    expect_due(&rt, &mut clock, &[]);
    expect_started(&rt, &mut clock, 8, E_OK);
    expect_due(&rt, &mut clock, &[]);
    expect_due(&rt, &mut clock, &[ObjId(1)]);
    expect_due(&rt, &mut clock, &[ObjId(8)]);
    Ok(())
}

#[test]
fn both_of_one_tick_come_due(rt: HostRuntime) -> Result<(), Fail> {
    let conf = two_handlers(rt.alloc())?;
    let mut clock = Clock::open(rt.alloc(), &conf)?;
    expect_started(&rt, &mut clock, 1, E_OK);
    expect_due(&rt, &mut clock, &[]);
    expect_due(&rt, &mut clock, &[ObjId(8)]);
    expect_due(&rt, &mut clock, &[]);
    expect_due(&rt, &mut clock, &[ObjId(1), ObjId(8)]);
    Ok(())
}

#[test]
fn unknown_handlers_are_refused(rt: HostRuntime) -> Result<(), Fail> {
    let conf = two_handlers(rt.alloc())?;
    let mut clock = Clock::open(rt.alloc(), &conf)?;
    expect_started(&rt, &mut clock, 0, E_ID);
    expect_started(&rt, &mut clock, 9, E_ID);
    assert_eq!(rt; clock.stp_cyc(ObjId(9)), E_ID);
    assert_eq!(rt; clock.stp_cyc(ObjId(2)), E_NOEXS);
    Ok(())
}

#[test]
fn the_system_time_rises_from_where_it_was_set(rt: HostRuntime) -> Result<(), Fail> {
    let conf = two_handlers(rt.alloc())?;
    let mut clock = Clock::open(rt.alloc(), &conf)?;
    assert_eq!(rt; clock.get_tim(), 0);
    expect_due(&rt, &mut clock, &[]);
    assert_eq!(rt; clock.get_tim(), 1);
    clock.set_tim((1 << 63) - 1);
    expect_due(&rt, &mut clock, &[ObjId(8)]);
    assert_eq!(rt; clock.get_tim(), 1 << 63);
    assert_eq!(rt; clock.now(), 2);
    Ok(())
}
