//! UDP end points to which the calls that wait are lent, step by step: what each call, arrival and end from outside shows, and which
//! callback routine is due.

ghost use Rattle.std.specs.Prelude.{IfOk};
ghost use Rattle.spec_udp.specs.Settling.{UdpAtRest};
ghost use Rattle.e_udp.specs.Does.{side};

use e_pend::Pend;
use e_udp::Udps;
use it_types::{
    Ans, CallNo, CepId, E_BOVR, E_DLT, E_ID, E_NOEXS, E_OBJ, E_OK, E_PAR, E_RLWAI, E_TMOUT, EndPt,
    Er, FnCode, Handler, Mark, NoMemory, ObjId, Out, TaskId, Tmo,
};
use net_ip4::Datagram;
use std::alloc::Global;
use std::process::Abort;
use std::test::*;

// 10.0.0.1
const HERE: u32 = 0x0a000001;

// 10.0.0.2
const PEER: u32 = 0x0a000002;

const TASK: TaskId = TaskId(3);

// The one callback routine that is declared.
const ROUTINE: ObjId = ObjId(7);

const TO_PEER: EndPt = EndPt {
    addr: PEER,
    port: 2000,
};

// "hi" from port 2000 to port 1000, without a checksum.
const HI: &[u8] = b"\x07\xd0\x03\xe8\x00\x0a\x00\x00hi";

// The same with its sender, as a receive answers it.
const HI_FROM_PEER: &[u8] = b"\x0a\x00\x00\x02\x07\xd0hi";

/// What happens at the end points of the node 10.0.0.1.
#[derive(Clone, Copy)]
enum Step<'a> {
    /// Task 3 makes an end point at a port, with a callback routine.
    Create(u32, u16, u32),
    /// Task 3 deletes an end point.
    Delete(u32),
    /// Task 3 sends data from an end point, under a call number.
    Send(u32, u32, EndPt, &'a [u8], Tmo),
    /// A task, 0 for a handler, asks under a call number for so many bytes of an end point.
    Receive(u32, u32, u32, u32, Tmo),
    /// Task 3 cancels calls of a function at an end point.
    Cancel(u32, FnCode),
    /// A user datagram comes from 10.0.0.2.
    Arrive(&'a [u8]),
    /// The data of a datagram come from 10.0.0.2, for an address and with a protocol.
    ArriveFor(u32, u8, &'a [u8]),
    /// The call of a number ends by time.
    TimeOut(u32),
}

/// How it is answered.
#[derive(Clone, Copy)]
enum Told<'a> {
    Answer(Er, &'a [u8]),
    Waits(u32),
    Later(u32),
    Nothing,
}

/// The end of a call: its number, its code and its bytes.
#[derive(Clone, Copy)]
struct End<'a>(u32, Er, &'a [u8]);

/// What routine 7 is told: the function, the code and the bytes.
#[derive(Clone, Copy)]
struct Call<'a>(FnCode, Er, &'a [u8]);

/// What comes of a step.
#[derive(Clone, Copy)]
struct Shown<'a> {
    told: Told<'a>,
    end: Option<End<'a>>,
    routine: Option<Call<'a>>,
    packets: usize,
}

fn only(told: Told<'_>) -> Shown<'_> {
    Shown {
        told,
        end: None,
        routine: None,
        packets: 0,
    }
}

fn code(code: Er) -> Shown<'static> {
    only(Told::Answer(code, b""))
}

fn from_peer(dst: u32, proto: u8, load: &[u8]) -> Datagram<'_> {
    Datagram {
        src: PEER,
        dst,
        proto,
        ttl: 64,
        load,
    }
}

fn carry_out(
    rt: &impl Abort,
    alloc: Global,
    udps: &mut Udps,
    pend: &mut Pend,
    step: Step<'_>,
) -> Result<Out, NoMemory>
    requires rest { UdpAtRest (side udps.old pend.old) }
    ensures rest { IfOk result (λ _. UdpAtRest (side udps.new pend.new)) }
{
    match step {
        Step::Create(cep, port, cbr) => {
            let none = CallNo(0);
            udps.udp_cre_cep(alloc, pend, TASK, none, 0, CepId(cep), port, ObjId(cbr))
        }
        Step::Delete(cep) => udps.udp_del_cep(alloc, pend, TASK, CallNo(0), 0, CepId(cep)),
        Step::Send(no, cep, dest, load, tmo) => {
            assert!(rt; pend.is_above(CallNo(no)));
            udps.udp_snd_dat(
                alloc,
                pend,
                TASK,
                CallNo(no),
                0,
                CepId(cep),
                dest,
                load,
                tmo,
            )
        }
        Step::Receive(by, no, cep, len, tmo) => {
            assert!(rt; by != 0 || tmo.is_poll());
            assert!(rt; pend.is_above(CallNo(no)));
            udps.udp_rcv_dat(alloc, pend, TaskId(by), CallNo(no), 0, CepId(cep), len, tmo)
        }
        Step::Cancel(cep, func) => {
            udps.udp_can_cep(alloc, pend, TASK, CallNo(0), 0, CepId(cep), func)
        }
        Step::Arrive(load) => udps.arrive(alloc, pend, &from_peer(HERE, 17, load), 0),
        Step::ArriveFor(dst, proto, load) => {
            udps.arrive(alloc, pend, &from_peer(dst, proto, load), 0)
        }
        Step::TimeOut(no) => udps.end(alloc, pend, CallNo(no), E_TMOUT, 2),
    }
}

fn expect_answer(rt: &impl Abort, answer: &Ans, told: Told<'_>, what: &str) {
    match (answer, told) {
        (Ans::Now(answer, given), Told::Answer(code, bytes)) => {
            assert_eq!(rt; *answer, code, "{what}");
            assert_eq!(rt; given.as_slice(), bytes, "{what}");
        }
        (Ans::Pends(given), Told::Waits(no)) => assert_eq!(rt; given.0, no, "{what}"),
        (Ans::Later(given), Told::Later(no)) => assert_eq!(rt; given.0, no, "{what}"),
        (Ans::Quiet, Told::Nothing) => {}
        _ => assert!(rt; false, "{what}"),
    }
}

fn expect_end(rt: &impl Abort, out: &Out, end: Option<End<'_>>, what: &str) {
    match (out.ends.as_slice(), end) {
        ([given], Some(End(no, code, bytes))) => {
            assert_eq!(rt; (given.call, given.code), (CallNo(no), code), "{what}");
            assert_eq!(rt; given.bytes.as_slice(), bytes, "{what}");
        }
        ([], None) => {}
        _ => assert!(rt; false, "{what}"),
    }
}

fn expect_mark(rt: &impl Abort, out: &Out, routine: Option<Call<'_>>, what: &str) {
    match (out.marks.as_slice(), routine) {
        (
            [
                Mark::Callback {
                    cbr,
                    udp,
                    cep,
                    func,
                    code,
                },
            ],
            Some(Call(function, told, _)),
        ) => {
            assert_eq!(rt; (*cbr, *udp, *cep), (ROUTINE, true, CepId(1)), "{what}");
            assert_eq!(rt; (*func, *code), (function, told), "{what}");
        }
        ([], None) => {}
        _ => assert!(rt; false, "{what}"),
    }
}

fn expect_due(rt: &impl Abort, due: Option<Handler>, routine: Option<Call<'_>>, what: &str) {
    match (due, routine) {
        (
            Some(
                Handler::Cbr {
                    cbr,
                    udp,
                    cep,
                    func,
                    code,
                    bytes,
                },
            ),
            Some(Call(function, told, load)),
        ) => {
            assert_eq!(rt; (cbr, udp, cep), (ROUTINE, true, CepId(1)), "{what}");
            assert_eq!(rt; (func, code), (function, told), "{what}");
            assert_eq!(rt; bytes.as_slice(), load, "{what}");
        }
        (None, None) => {}
        _ => assert!(rt; false, "{what}"),
    }
}

fn expect(rt: &impl Abort, out: &Out, due: Option<Handler>, shown: Shown<'_>, what: &str) {
    expect_answer(rt, &out.ans, shown.told, what);
    expect_end(rt, out, shown.end, what);
    expect_mark(rt, out, shown.routine, what);
    expect_due(rt, due, shown.routine, what);
    assert_eq!(rt; out.packs.len(), shown.packets, "{what}");
}

/// Each step in turn, from a node without end points on, shows what is said of it.
fn expect_steps(
    rt: &impl Abort,
    alloc: Global,
    steps: &[(&str, Step<'_>, Shown<'_>)],
) -> Result<(), NoMemory> {
    let mut udps = Udps::open(alloc, HERE, &[ROUTINE])?;
    let mut pend = Pend::open(alloc)?;
    for (what, step, shown) in steps {
        let out = carry_out(rt, alloc, &mut udps, &mut pend, *step)?;
        let due = pend.next_handler();
        expect(rt, &out, due, *shown, what);
    }
    Ok(())
}

// An end point at port 1000 without a callback routine.
const PLAIN: (&str, Step<'static>, Shown<'static>) = (
    "an end point",
    Step::Create(1, 1000, 0),
    Shown {
        told: Told::Answer(E_OK, b""),
        end: None,
        routine: None,
        packets: 0,
    },
);

// An end point at port 1000 with routine 7.
const WITH_ROUTINE: (&str, Step<'static>, Shown<'static>) = (
    "an end point with a routine",
    Step::Create(1, 1000, 7),
    Shown {
        told: Told::Answer(E_OK, b""),
        end: None,
        routine: None,
        packets: 0,
    },
);

#[test]
fn creations_are_refused_by_the_first_test(rt: HostRuntime) -> Result<(), Fail> {
    let steps = [
        PLAIN,
        ("id 0", Step::Create(0, 1000, 8), code(E_ID)),
        ("id 17", Step::Create(17, 1000, 8), code(E_ID)),
        (
            "an end point that is there",
            Step::Create(1, 1000, 8),
            code(E_OBJ),
        ),
        (
            "a port that is taken",
            Step::Create(2, 1000, 8),
            code(E_PAR),
        ),
        (
            "a routine that isn't declared",
            Step::Create(2, 1001, 8),
            code(E_PAR),
        ),
        ("a routine that is", Step::Create(16, 1001, 7), code(E_OK)),
        ("any port", Step::Create(2, 0, 0), code(E_OK)),
    ];
    expect_steps(&rt, rt.alloc(), &steps)?;
    Ok(())
}

#[test]
fn deletions_are_refused_by_the_first_test(rt: HostRuntime) -> Result<(), Fail> {
    let steps = [
        ("id 0", Step::Delete(0), code(E_ID)),
        ("id 17", Step::Delete(17), code(E_ID)),
        ("no end point", Step::Delete(1), code(E_NOEXS)),
    ];
    expect_steps(&rt, rt.alloc(), &steps)?;
    Ok(())
}

#[test]
fn sends_are_refused_by_the_first_test(rt: HostRuntime) -> Result<(), Fail> {
    let long = [0; 1473];
    let to = |addr: u32, port: u16| EndPt { addr, port };
    let steps = [
        PLAIN,
        (
            "id 0",
            Step::Send(1, 0, to(HERE, 0), &long, Tmo::Nblk),
            code(E_ID),
        ),
        (
            "id 17",
            Step::Send(1, 17, to(HERE, 0), &long, Tmo::Nblk),
            code(E_ID),
        ),
        (
            "no end point",
            Step::Send(1, 2, to(HERE, 0), &long, Tmo::Nblk),
            code(E_NOEXS),
        ),
        (
            "to itself",
            Step::Send(1, 1, to(HERE, 2000), b"", Tmo::Fevr),
            code(E_PAR),
        ),
        (
            "to no address",
            Step::Send(1, 1, to(0, 2000), b"", Tmo::Fevr),
            code(E_PAR),
        ),
        (
            "to no port",
            Step::Send(1, 1, to(PEER, 0), b"", Tmo::Fevr),
            code(E_PAR),
        ),
        (
            "1,473 bytes",
            Step::Send(1, 1, TO_PEER, &long, Tmo::Fevr),
            code(E_PAR),
        ),
        (
            "no routine",
            Step::Send(1, 1, TO_PEER, b"", Tmo::Nblk),
            code(E_PAR),
        ),
    ];
    expect_steps(&rt, rt.alloc(), &steps)?;
    Ok(())
}

#[test]
fn receives_are_refused_by_the_first_test(rt: HostRuntime) -> Result<(), Fail> {
    let steps = [
        PLAIN,
        (
            "a call that waits",
            Step::Receive(3, 1, 1, 5, Tmo::Fevr),
            only(Told::Waits(1)),
        ),
        ("id 0", Step::Receive(4, 2, 0, 65281, Tmo::Nblk), code(E_ID)),
        (
            "id 17",
            Step::Receive(4, 2, 17, 65281, Tmo::Nblk),
            code(E_ID),
        ),
        (
            "no end point",
            Step::Receive(4, 2, 2, 65281, Tmo::Nblk),
            code(E_NOEXS),
        ),
        (
            "65,281 bytes",
            Step::Receive(4, 2, 1, 65281, Tmo::Fevr),
            code(E_PAR),
        ),
        (
            "no routine",
            Step::Receive(4, 2, 1, 65280, Tmo::Nblk),
            code(E_PAR),
        ),
        (
            "a call waits already",
            Step::Receive(4, 2, 1, 65280, Tmo::Fevr),
            code(E_OBJ),
        ),
    ];
    expect_steps(&rt, rt.alloc(), &steps)?;
    Ok(())
}

#[test]
fn cancels_are_refused_by_the_first_test(rt: HostRuntime) -> Result<(), Fail> {
    let steps = [
        PLAIN,
        ("id 0", Step::Cancel(0, FnCode::All), code(E_ID)),
        ("id 17", Step::Cancel(17, FnCode::All), code(E_ID)),
        ("no end point", Step::Cancel(2, FnCode::All), code(E_NOEXS)),
        ("no call", Step::Cancel(1, FnCode::All), code(E_OBJ)),
        (
            "a call that waits",
            Step::Receive(3, 1, 1, 5, Tmo::Fevr),
            only(Told::Waits(1)),
        ),
        ("no send", Step::Cancel(1, FnCode::UdpSnd), code(E_OBJ)),
    ];
    expect_steps(&rt, rt.alloc(), &steps)?;
    Ok(())
}

#[test]
fn a_send_goes_out_at_once(rt: HostRuntime) -> Result<(), Fail> {
    let steps = [
        WITH_ROUTINE,
        (
            "a task waits for it",
            Step::Send(1, 1, TO_PEER, b"hi", Tmo::Fevr),
            Shown {
                packets: 1,
                ..only(Told::Answer(Er(2), b""))
            },
        ),
        (
            "a routine is told of it",
            Step::Send(1, 1, TO_PEER, b"hi", Tmo::Nblk),
            Shown {
                told: Told::Later(1),
                end: Some(End(1, Er(2), b"")),
                routine: Some(Call(FnCode::UdpSnd, Er(2), b"")),
                packets: 1,
            },
        ),
    ];
    expect_steps(&rt, rt.alloc(), &steps)?;
    Ok(())
}

#[test]
fn a_routine_is_told_of_a_receive(rt: HostRuntime) -> Result<(), Fail> {
    let received = Call(FnCode::UdpRcv, Er(2), HI_FROM_PEER);
    let steps = [
        WITH_ROUTINE,
        (
            "none is there",
            Step::Receive(3, 1, 1, 5, Tmo::Nblk),
            only(Told::Later(1)),
        ),
        (
            "it comes",
            Step::Arrive(HI),
            Shown {
                end: Some(End(1, Er(2), HI_FROM_PEER)),
                routine: Some(received),
                ..only(Told::Nothing)
            },
        ),
        (
            "another comes first",
            Step::Arrive(HI),
            Shown {
                routine: Some(Call(FnCode::UdpEvent, Er(2), b"")),
                ..only(Told::Nothing)
            },
        ),
        (
            "it is there",
            Step::Receive(3, 2, 1, 1, Tmo::Nblk),
            Shown {
                told: Told::Later(2),
                end: Some(End(2, E_BOVR, b"\x0a\x00\x00\x02\x07\xd0h")),
                routine: Some(Call(FnCode::UdpRcv, E_BOVR, b"\x0a\x00\x00\x02\x07\xd0h")),
                packets: 0,
            },
        ),
        (
            "it is taken",
            Step::Receive(0, 3, 1, 5, Tmo::Pol),
            code(E_TMOUT),
        ),
    ];
    expect_steps(&rt, rt.alloc(), &steps)?;
    Ok(())
}

#[test]
fn a_cancel_ends_a_receive(rt: HostRuntime) -> Result<(), Fail> {
    let steps = [
        WITH_ROUTINE,
        (
            "a task waits",
            Step::Receive(3, 1, 1, 5, Tmo::Fevr),
            only(Told::Waits(1)),
        ),
        (
            "the task is told",
            Step::Cancel(1, FnCode::All),
            Shown {
                end: Some(End(1, E_RLWAI, b"")),
                ..code(E_OK)
            },
        ),
        (
            "a routine is to be told",
            Step::Receive(3, 2, 1, 5, Tmo::Nblk),
            only(Told::Later(2)),
        ),
        (
            "the routine is told",
            Step::Cancel(1, FnCode::UdpRcv),
            Shown {
                end: Some(End(2, E_RLWAI, b"")),
                routine: Some(Call(FnCode::UdpRcv, E_RLWAI, b"")),
                ..code(E_OK)
            },
        ),
    ];
    expect_steps(&rt, rt.alloc(), &steps)?;
    Ok(())
}

#[test]
fn a_deletion_ends_a_receive_and_drops_datagrams(rt: HostRuntime) -> Result<(), Fail> {
    let steps = [
        WITH_ROUTINE,
        (
            "a routine is to be told",
            Step::Receive(3, 1, 1, 5, Tmo::Nblk),
            only(Told::Later(1)),
        ),
        (
            "the routine is told",
            Step::Delete(1),
            Shown {
                end: Some(End(1, E_DLT, b"")),
                routine: Some(Call(FnCode::UdpRcv, E_DLT, b"")),
                ..code(E_OK)
            },
        ),
        ("no end point", Step::Arrive(HI), only(Told::Nothing)),
        PLAIN,
        ("it joins", Step::Arrive(HI), only(Told::Nothing)),
        ("nothing waits", Step::Delete(1), code(E_OK)),
        PLAIN,
        (
            "it is dropped",
            Step::Receive(3, 2, 1, 5, Tmo::Pol),
            code(E_TMOUT),
        ),
    ];
    expect_steps(&rt, rt.alloc(), &steps)?;
    Ok(())
}

#[test]
fn a_time_out_ends_a_receive(rt: HostRuntime) -> Result<(), Fail> {
    let steps = [
        WITH_ROUTINE,
        (
            "a task waits",
            Step::Receive(3, 4, 1, 5, Tmo::Ms(1)),
            only(Told::Waits(4)),
        ),
        ("another number", Step::TimeOut(3), only(Told::Nothing)),
        (
            "it is over",
            Step::TimeOut(4),
            Shown {
                end: Some(End(4, E_TMOUT, b"")),
                ..only(Told::Nothing)
            },
        ),
        ("it was over", Step::TimeOut(4), only(Told::Nothing)),
    ];
    expect_steps(&rt, rt.alloc(), &steps)?;
    Ok(())
}

#[test]
fn a_ninth_datagram_has_no_place(rt: HostRuntime) -> Result<(), Fail> {
    let comes = (
        "it joins",
        Step::Arrive(HI),
        Shown {
            routine: Some(Call(FnCode::UdpEvent, Er(2), b"")),
            ..only(Told::Nothing)
        },
    );
    let taken = (
        "it is taken",
        Step::Receive(3, 1, 1, 5, Tmo::Pol),
        only(Told::Answer(Er(2), HI_FROM_PEER)),
    );
    let steps = [
        WITH_ROUTINE,
        comes,
        comes,
        comes,
        comes,
        comes,
        comes,
        comes,
        comes,
        ("the ninth", Step::Arrive(HI), only(Told::Nothing)),
        taken,
        taken,
        taken,
        taken,
        taken,
        taken,
        taken,
        taken,
        (
            "no ninth",
            Step::Receive(3, 1, 1, 5, Tmo::Pol),
            code(E_TMOUT),
        ),
    ];
    expect_steps(&rt, rt.alloc(), &steps)?;
    Ok(())
}

#[test]
fn a_routine_is_told_only_of_a_datagram_that_joins(rt: HostRuntime) -> Result<(), Fail> {
    let elsewhere = b"\x07\xd0\x03\xe9\x00\x0a\x00\x00hi";
    let steps = [
        WITH_ROUTINE,
        ("another port", Step::Arrive(elsewhere), only(Told::Nothing)),
        (
            "a task waits",
            Step::Receive(3, 1, 1, 5, Tmo::Fevr),
            only(Told::Waits(1)),
        ),
        (
            "the task is told",
            Step::Arrive(HI),
            Shown {
                end: Some(End(1, Er(2), HI_FROM_PEER)),
                ..only(Told::Nothing)
            },
        ),
        (
            "it joins",
            Step::Arrive(HI),
            Shown {
                routine: Some(Call(FnCode::UdpEvent, Er(2), b"")),
                ..only(Told::Nothing)
            },
        ),
        ("without a routine", Step::Delete(1), code(E_OK)),
        PLAIN,
        ("nobody is told", Step::Arrive(HI), only(Told::Nothing)),
    ];
    expect_steps(&rt, rt.alloc(), &steps)?;
    Ok(())
}

// The IPv4 header's words without the checksum are 4500, 05dc, 0000, 4000, 4011, 0a00, 0001, 0a00 and 0002: they add up to
// def0. Those of the pseudo header, the ports and the two lengths are 0a00, 0001, 0a00, 0002, 0011, 03e8, 07d0, 05c8 and
// 05c8: with 6869 of the data they add up to 93c5.
#[test]
fn sends_the_greatest_datagram(rt: HostRuntime) -> Result<(), Fail> {
    let mut udps = Udps::open(rt.alloc(), HERE, &[ROUTINE])?;
    let mut pend = Pend::open(rt.alloc())?;
    carry_out(&rt, rt.alloc(), &mut udps, &mut pend, PLAIN.1)?;
    let mut load = [0; 1472];
    load[0] = b'h';
    load[1] = b'i';
    let step = Step::Send(1, 1, TO_PEER, &load, Tmo::Fevr);
    let out = carry_out(&rt, rt.alloc(), &mut udps, &mut pend, step)?;
    expect_answer(&rt, &out.ans, Told::Answer(Er(1472), b""), "a send");
    let mut expected = Vec::from_slice(
        rt.alloc(),
        b"\x45\x00\x05\xdc\x00\x00\x40\x00\x40\x11\x21\x0f\x0a\x00\x00\x01\x0a\x00\x00\x02\x03\xe8\x07\xd0\x05\xc8\x6c\x3a",
    )?;
    expected.extend_from_slice(&load)?;
    assert_eq!(rt; out.packs.len(), 1);
    if let Some(packet) = out.packs.as_slice().first() {
        assert_eq!(rt; packet.as_slice(), expected.as_slice());
    }
    Ok(())
}

#[test]
fn what_is_not_for_the_node_is_dropped(rt: HostRuntime) -> Result<(), Fail> {
    let poll = Step::Receive(0, 1, 1, 100, Tmo::Pol);
    let nothing = code(E_TMOUT);
    let dropped = only(Told::Nothing);
    let steps = [
        WITH_ROUTINE,
        ("another address", Step::ArriveFor(PEER, 17, HI), dropped),
        ("after another address", poll, nothing),
        ("another protocol", Step::ArriveFor(HERE, 6, HI), dropped),
        ("after another protocol", poll, nothing),
        (
            "another port",
            Step::Arrive(b"\x07\xd0\x03\xe9\x00\x0a\x00\x00hi"),
            dropped,
        ),
        ("after another port", poll, nothing),
        (
            "a wrong checksum",
            Step::Arrive(b"\x07\xd0\x03\xe8\x00\x0a\x00\x01hi"),
            dropped,
        ),
        ("after a wrong checksum", poll, nothing),
        (
            "a byte missing",
            Step::Arrive(b"\x07\xd0\x03\xe8\x00\x0a\x00\x00h"),
            dropped,
        ),
        ("after a byte missing", poll, nothing),
    ];
    expect_steps(&rt, rt.alloc(), &steps)?;
    Ok(())
}
