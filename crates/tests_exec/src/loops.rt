use crate::bodies::{Does, Told, body_of, expect_calls, expect_task};
use it_types::{NodeId, TaskId};
use s_exec::Exec;
use std::test::*;

const ASKS: Does<'static> = Does::Calls("get_tid");

const SLEEPS: Does<'static> = Does::Calls("tslp_tsk fevr");

const fn asked(code: i32) -> Told<'static> {
    Told("get_tid", code, b"")
}

const SLEPT: Told<'static> = Told("tslp_tsk fevr", 0, b"");

const ENDS: Told<'static> = Told("ext_tsk", 0, b"");

#[test]
fn a_body_without_lines_ends(rt: HostRuntime) -> Result<(), Fail> {
    expect_task(&rt, rt.alloc(), &[], &[ENDS, ENDS])
}

// It asks, at most three times, and then sleeps.
#[test]
fn end_leaves_at_0_and_fail_below(rt: HostRuntime) -> Result<(), Fail> {
    let table: [(Does<'_>, &[Told<'_>]); 6] = [
        (Does::UntilEnd, &[asked(1), asked(1), asked(1), SLEPT, ENDS]),
        (Does::UntilEnd, &[asked(1), asked(0), SLEPT, ENDS]),
        (Does::UntilEnd, &[asked(-1), SLEPT, ENDS]),
        (
            Does::UntilFail,
            &[asked(0), asked(1), asked(0), SLEPT, ENDS],
        ),
        (Does::UntilFail, &[asked(0), asked(-1), SLEPT, ENDS]),
        (Does::UntilFail, &[asked(-57), SLEPT, ENDS]),
    ];
    for (leaving, calls) in table {
        let lines = [Does::Loop(3), ASKS, leaving, Does::Pool, SLEEPS];
        expect_task(&rt, rt.alloc(), &lines, calls)?;
    }
    Ok(())
}

// Task 1 sends the three bytes 16, 17 and 18, two and then one; a refused send leaves them.
#[test]
fn empty_leaves_with_an_empty_buffer(rt: HostRuntime) -> Result<(), Fail> {
    let lines = [
        Does::Fill(3),
        Does::Loop(9),
        Does::Sends,
        Does::UntilEmpty,
        Does::Pool,
        ASKS,
    ];
    let calls = [
        Told("tcp_snd_dat 1 x101112 fevr", 2, b""),
        Told("tcp_snd_dat 1 x12 fevr", -50, b""),
        Told("tcp_snd_dat 1 x12 fevr", 1, b""),
        asked(1),
        ENDS,
    ];
    expect_task(&rt, rt.alloc(), &lines, &calls)
}

// In each of two rounds the inner loop, which could run twice, is left after its first call. A loop inside the one that is left is
// passed over with it.
#[test]
fn the_innermost_loop_is_left_alone(rt: HostRuntime) -> Result<(), Fail> {
    for leaving in [Does::UntilEnd, Does::UntilFail, Does::UntilEmpty] {
        let two = Does::Loop(2);
        let lines = [two, two, ASKS, leaving, Does::Pool, SLEEPS, Does::Pool];
        let calls = [asked(-50), SLEPT, asked(-50), SLEPT, ENDS];
        expect_task(&rt, rt.alloc(), &lines, &calls)?;
        let five = Does::Loop(5);
        let around = [
            two,
            ASKS,
            leaving,
            five,
            ASKS,
            Does::Pool,
            Does::Pool,
            SLEEPS,
        ];
        expect_task(&rt, rt.alloc(), &around, &[asked(-52), SLEPT, ENDS])?;
    }
    Ok(())
}

// The first of 65,535 rounds runs the inner loop 65,535 times, and the second begins it anew.
#[test]
fn the_longest_loop_in_the_longest(rt: HostRuntime) -> Result<(), Fail> {
    let longest = Does::Loop(65535);
    let lines = [longest, longest, ASKS, Does::Pool, SLEEPS, Does::Pool];
    let body = body_of(rt.alloc(), &lines)?;
    let mut exec = Exec::start(rt.alloc(), &body, NodeId(0), TaskId(1), None)?;
    for _ in 0..65535 {
        expect_calls(&rt, rt.alloc(), &mut exec, &[asked(1)])?;
    }
    expect_calls(&rt, rt.alloc(), &mut exec, &[SLEPT, asked(1)])?;
    Ok(())
}
