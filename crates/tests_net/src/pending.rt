//! Calls that wait, and handlers that are due, step by step.

use e_pend::{Part, Pend, Slot, Who};
use it_types::{
    CallNo, CepId, E_DLT, E_OBJ, E_OK, E_RLWAI, E_TMOUT, Er, FnCode, Handler, ObjId, TaskId,
};
use std::process::Abort;
use std::test::*;

const TASK: Who = Who::Task(TaskId(3));

const ROUTINE: Who = Who::Callback(TaskId(3), ObjId(7));

fn at(udp: bool, cep: u32, part: Part, func: FnCode) -> Slot {
    Slot {
        udp,
        cep: CepId(cep),
        part,
        func,
    }
}

fn accept(rt: &impl Abort, pend: &mut Pend, who: Who, what: Slot, no: u32) -> Er {
    assert!(rt; what.cep.0 >= 1 && what.cep.0 <= 16);
    assert!(rt; pend.is_above(CallNo(no)));
    pend.accept(who, what, CallNo(no))
}

/// The next due handler is routine 7, told of a call at this part, with this code and these bytes.
fn expect_routine(rt: &impl Abort, pend: &mut Pend, what: Slot, told: Er, load: &[u8]) {
    match pend.next_handler() {
        Some(
            Handler::Cbr {
                cbr,
                udp,
                cep,
                func,
                code,
                bytes,
            },
        ) => {
            assert_eq!(rt; cbr, ObjId(7));
            assert_eq!(rt; (udp, cep, func), (what.udp, what.cep, what.func));
            assert_eq!(rt; code, told);
            assert_eq!(rt; bytes.as_slice(), load);
        }
        _ => assert!(rt; false, "no routine is due"),
    }
}

fn expect_cyclic(rt: &impl Abort, pend: &mut Pend, cyc: u32) {
    match pend.next_handler() {
        Some(Handler::Cyc(id)) => assert_eq!(rt; id, ObjId(cyc)),
        _ => assert!(rt; false, "no cyclic handler is due"),
    }
}

#[test]
fn one_call_waits_at_each_part(rt: HostRuntime) -> Result<(), Fail> {
    let mut pend = Pend::open(rt.alloc())?;
    let receive = at(false, 1, Part::Recv, FnCode::RcvDat);
    let same_part = at(false, 1, Part::Recv, FnCode::RcvBuf);
    let send = at(false, 1, Part::Send, FnCode::SndDat);
    let over_udp = at(true, 1, Part::Recv, FnCode::UdpRcv);
    let elsewhere = at(false, 2, Part::Recv, FnCode::RcvDat);
    assert_eq!(rt; pend.of(receive), None);
    assert_eq!(rt; accept(&rt, &mut pend, TASK, receive, 4), E_OK);
    assert_eq!(rt; accept(&rt, &mut pend, TASK, same_part, 5), E_OBJ);
    assert_eq!(rt; accept(&rt, &mut pend, ROUTINE, receive, 5), E_OBJ);
    assert_eq!(rt; pend.of(same_part), Some(CallNo(4)));
    assert_eq!(rt;
        (pend.of(send), pend.of(over_udp), pend.of(elsewhere)),
        (None, None, None)
    );
    assert_eq!(rt; accept(&rt, &mut pend, TASK, send, 5), E_OK);
    assert_eq!(rt; accept(&rt, &mut pend, TASK, over_udp, 6), E_OK);
    assert_eq!(rt; accept(&rt, &mut pend, TASK, elsewhere, 7), E_OK);
    assert_eq!(rt; pend.of(receive), Some(CallNo(4)));
    assert_eq!(rt; pend.of(send), Some(CallNo(5)));
    assert_eq!(rt; pend.of(over_udp), Some(CallNo(6)));
    assert_eq!(rt; pend.of(elsewhere), Some(CallNo(7)));
    Ok(())
}

#[test]
fn a_cancel_of_all_goes_by_parts(rt: HostRuntime) -> Result<(), Fail> {
    let mut pend = Pend::open(rt.alloc())?;
    let cep = CepId(16);
    accept(
        &rt,
        &mut pend,
        TASK,
        at(false, 16, Part::Recv, FnCode::RcvDat),
        1,
    );
    accept(
        &rt,
        &mut pend,
        TASK,
        at(false, 16, Part::Send, FnCode::GetBuf),
        2,
    );
    accept(
        &rt,
        &mut pend,
        TASK,
        at(false, 16, Part::Conn, FnCode::ClsCep),
        3,
    );
    for no in [3, 2, 1] {
        assert_eq!(rt;
            pend.cancel_first(false, cep, FnCode::All),
            Some(CallNo(no))
        );
        assert_eq!(rt; pend.end(rt.alloc(), CallNo(no), E_RLWAI, b"")?, Some(TASK));
    }
    assert_eq!(rt; pend.cancel_first(false, cep, FnCode::All), None);
    Ok(())
}

#[test]
fn a_cancel_names_its_function_alone(rt: HostRuntime) -> Result<(), Fail> {
    let mut pend = Pend::open(rt.alloc())?;
    accept(
        &rt,
        &mut pend,
        TASK,
        at(false, 1, Part::Conn, FnCode::ConCep),
        1,
    );
    accept(
        &rt,
        &mut pend,
        TASK,
        at(false, 1, Part::Recv, FnCode::RcvDat),
        2,
    );
    accept(
        &rt,
        &mut pend,
        TASK,
        at(true, 1, Part::Recv, FnCode::UdpRcv),
        3,
    );
    let named = [
        (false, 1, FnCode::RcvDat, Some(CallNo(2))),
        (false, 1, FnCode::ConCep, Some(CallNo(1))),
        (false, 1, FnCode::AcpCep, None),
        (false, 1, FnCode::RcvBuf, None),
        (false, 2, FnCode::RcvDat, None),
        (true, 1, FnCode::All, Some(CallNo(3))),
        (true, 1, FnCode::UdpRcv, Some(CallNo(3))),
        (true, 1, FnCode::UdpSnd, None),
        (true, 1, FnCode::RcvDat, None),
        (true, 2, FnCode::All, None),
    ];
    for (udp, cep, func, call) in named {
        assert_eq!(rt; pend.cancel_first(udp, CepId(cep), func), call);
    }
    Ok(())
}

#[test]
fn an_end_is_told_once(rt: HostRuntime) -> Result<(), Fail> {
    let mut pend = Pend::open(rt.alloc())?;
    let receive = at(true, 1, Part::Recv, FnCode::UdpRcv);
    assert_eq!(rt; pend.end(rt.alloc(), CallNo(2), E_TMOUT, b"")?, None);
    assert_eq!(rt; accept(&rt, &mut pend, TASK, receive, 2), E_OK);
    assert_eq!(rt; pend.end(rt.alloc(), CallNo(1), E_TMOUT, b"")?, None);
    assert_eq!(rt; pend.end(rt.alloc(), CallNo(2), E_TMOUT, b"")?, Some(TASK));
    assert_eq!(rt; pend.end(rt.alloc(), CallNo(2), E_TMOUT, b"")?, None);
    assert!(rt; !pend.has_due());
    assert_eq!(rt; pend.of(receive), None);
    assert_eq!(rt; accept(&rt, &mut pend, ROUTINE, receive, 3), E_OK);
    Ok(())
}

#[test]
fn a_routine_is_due_after_the_end(rt: HostRuntime) -> Result<(), Fail> {
    let mut pend = Pend::open(rt.alloc())?;
    let receive = at(true, 9, Part::Recv, FnCode::UdpRcv);
    let send = at(false, 9, Part::Send, FnCode::SndDat);
    assert_eq!(rt; accept(&rt, &mut pend, ROUTINE, receive, 1), E_OK);
    assert_eq!(rt; accept(&rt, &mut pend, ROUTINE, send, 2), E_OK);
    assert!(rt; !pend.has_due());
    assert_eq!(rt; pend.end(rt.alloc(), CallNo(2), E_DLT, b"")?, Some(ROUTINE));
    assert_eq!(rt;
        pend.end(rt.alloc(), CallNo(1), E_OK, b"\x00\xff")?,
        Some(ROUTINE)
    );
    assert_eq!(rt; pend.end(rt.alloc(), CallNo(1), E_OK, b"\x00\xff")?, None);
    assert!(rt; pend.has_due());
    expect_routine(&rt, &mut pend, send, E_DLT, b"");
    expect_routine(&rt, &mut pend, receive, E_OK, b"\x00\xff");
    assert!(rt; !pend.has_due());
    assert!(rt; pend.next_handler().is_none());
    Ok(())
}

#[test]
fn handlers_are_due_in_their_order(rt: HostRuntime) -> Result<(), Fail> {
    let mut pend = Pend::open(rt.alloc())?;
    let receive = at(true, 1, Part::Recv, FnCode::UdpRcv);
    assert_eq!(rt; accept(&rt, &mut pend, ROUTINE, receive, 1), E_OK);
    pend.add_handler(Handler::Cyc(ObjId(8)))?;
    assert_eq!(rt;
        pend.end(rt.alloc(), CallNo(1), E_TMOUT, b"")?,
        Some(ROUTINE)
    );
    pend.add_handler(Handler::Cyc(ObjId(2)))?;
    pend.add_handler(Handler::Cyc(ObjId(8)))?;
    assert!(rt; pend.is_cyclic_due(ObjId(8)) && pend.is_cyclic_due(ObjId(2)));
    assert!(rt; !pend.is_cyclic_due(ObjId(7)));
    expect_cyclic(&rt, &mut pend, 8);
    expect_routine(&rt, &mut pend, receive, E_TMOUT, b"");
    expect_cyclic(&rt, &mut pend, 2);
    assert!(rt; pend.is_cyclic_due(ObjId(8)) && !pend.is_cyclic_due(ObjId(2)));
    expect_cyclic(&rt, &mut pend, 8);
    assert!(rt; pend.next_handler().is_none());
    Ok(())
}

/// Accepts a call at each part of an end point, under the numbers from this one on.
fn accept_at_all_parts(rt: &impl Abort, pend: &mut Pend, udp: bool, cep: u32, first: u32) {
    assert!(rt; first < 1000);
    let conn = at(udp, cep, Part::Conn, FnCode::ConCep);
    let send = at(udp, cep, Part::Send, FnCode::SndDat);
    let receive = at(udp, cep, Part::Recv, FnCode::RcvDat);
    assert_eq!(rt; accept(rt, pend, TASK, conn, first), E_OK);
    assert_eq!(rt; accept(rt, pend, TASK, send, first + 1), E_OK);
    assert_eq!(rt; accept(rt, pend, TASK, receive, first + 2), E_OK);
}

#[test]
fn ninety_six_calls_wait_at_once(rt: HostRuntime) -> Result<(), Fail> {
    let mut pend = Pend::open(rt.alloc())?;
    for cep in 1..17 {
        accept_at_all_parts(&rt, &mut pend, false, cep, 6 * cep);
        accept_at_all_parts(&rt, &mut pend, true, cep, 6 * cep + 3);
    }
    let first = at(false, 1, Part::Conn, FnCode::AcpCep);
    let last = at(true, 16, Part::Recv, FnCode::UdpRcv);
    assert_eq!(rt;
        (pend.of(first), pend.of(last)),
        (Some(CallNo(6)), Some(CallNo(101)))
    );
    for no in 6..102 {
        assert_eq!(rt; pend.end(rt.alloc(), CallNo(no), E_DLT, b"")?, Some(TASK));
    }
    assert_eq!(rt; (pend.of(first), pend.of(last)), (None, None));
    assert_eq!(rt; accept(&rt, &mut pend, TASK, last, 102), E_OK);
    Ok(())
}
