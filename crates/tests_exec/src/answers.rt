use crate::bodies::{Does, Told, body_of, expect_calls, expect_handler, expect_task};
use it_types::{Bytes, CepId, Er, FnCode, Handler, NoMemory, NodeId, ObjId, TaskId};
use s_exec::Exec;
use std::alloc::Global;
use std::process::Abort;
use std::test::*;

// Two bytes of the pattern, and then three.
const TWO_FILLS: [Does<'static>; 4] = [Does::Fill(2), Does::Sends, Does::Fill(3), Does::Sends];

const TWO: &str = "tcp_snd_dat 1 x8081 fevr";

const THREE: &str = "tcp_snd_dat 1 x828384 fevr";

// Byte 0 is 16 times the task and 128 times the node, modulo 256: 48 for task 3, 112 for task 15 of node 1, 128 for task 16 of it.
#[test]
fn a_task_has_its_pattern(rt: HostRuntime) -> Result<(), Fail> {
    let table = [
        (
            0,
            3,
            "tcp_snd_dat 1 x3031 fevr",
            "tcp_snd_dat 1 x323334 fevr",
        ),
        (
            0,
            16,
            "tcp_snd_dat 1 x0001 fevr",
            "tcp_snd_dat 1 x020304 fevr",
        ),
        (
            1,
            3,
            "tcp_snd_dat 1 xb0b1 fevr",
            "tcp_snd_dat 1 xb2b3b4 fevr",
        ),
        (
            1,
            15,
            "tcp_snd_dat 1 x7071 fevr",
            "tcp_snd_dat 1 x727374 fevr",
        ),
        (1, 16, TWO, THREE),
    ];
    let body = body_of(rt.alloc(), &TWO_FILLS)?;
    for (node, task, two, three) in table {
        let mut exec = Exec::start(rt.alloc(), &body, NodeId(node), TaskId(task), None)?;
        let calls = [
            Told(two, 2, b""),
            Told(three, -52, b""),
            Told("ext_tsk", 0, b""),
        ];
        expect_calls(&rt, rt.alloc(), &mut exec, &calls)?;
    }
    Ok(())
}

// Whichever task runs, a handler's is that of task 0.
#[test]
fn a_handler_has_the_pattern_of_its_node(rt: HostRuntime) -> Result<(), Fail> {
    let cyclic = Handler::Cyc(ObjId(1));
    let table = [
        (0, "tcp_snd_dat 1 x0001 fevr", "tcp_snd_dat 1 x020304 fevr"),
        (1, TWO, THREE),
    ];
    for (node, two, three) in table {
        let calls = [
            Told(two, 2, b""),
            Told(three, -52, b""),
            Told("finish", 0, b""),
        ];
        expect_handler(&rt, rt.alloc(), node, &cyclic, &TWO_FILLS, &calls)?;
    }
    Ok(())
}

// Task 1 begins at 16. After 238 bytes it is at 254, and after 4 more at 2; after 0 more still; after 300 at 46.
#[test]
fn a_pattern_goes_on_past_255(rt: HostRuntime) -> Result<(), Fail> {
    let lines = [
        Does::Fill(238),
        Does::Fill(4),
        Does::Sends,
        Does::Fill(0),
        Does::Sends,
        Does::Fill(300),
        Does::Fill(2),
        Does::Sends,
    ];
    let calls = [
        Told("tcp_snd_dat 1 xfeff0001 fevr", -52, b""),
        Told("tcp_snd_dat 1 x fevr", 0, b""),
        Told("tcp_snd_dat 1 x2e2f fevr", 2, b""),
    ];
    expect_task(&rt, rt.alloc(), &lines, &calls)
}

// The three bytes 1, 2 and 3 come from 10.0.0.1:7 before the call.
fn expect_left<'a>(
    rt: &impl Abort,
    alloc: Global,
    told: Told<'a>,
    left: &'a str,
) -> Result<(), Fail> {
    let first = "udp_rcv_dat 1 9 fevr";
    let lines = [Does::Calls(first), Does::Calls(told.0), Does::AnswersBack];
    let datagram = Told(first, 3, b"\x0a\x00\x00\x01\x00\x07\x01\x02\x03");
    expect_task(rt, alloc, &lines, &[datagram, told, Told(left, 0, b"")])
}

const KEPT: &str = "udp_snd_dat 1 10.0.0.1:7 x010203 pol";

const FROM_STREAM: &str = "udp_snd_dat 1 10.0.0.1:7 x0809 pol";

const AT_END: &str = "udp_snd_dat 1 10.0.0.1:7 x pol";

#[test]
fn what_a_receive_leaves(rt: HostRuntime) -> Result<(), Fail> {
    let table = [
        (Told("tcp_rcv_dat 1 9 fevr", 2, b"\x08\x09"), FROM_STREAM),
        (Told("tcp_rcv_dat 1 9 fevr", 0, b""), AT_END),
        (Told("tcp_rcv_dat 1 9 fevr", -52, b""), KEPT),
        (Told("tcp_rcv_dat 1 9 nblk", -57, b""), KEPT),
        (
            Told("tcp_rcv_buf 1 fevr", 2, b"\x00\x00\x01\x04\x08\x09"),
            FROM_STREAM,
        ),
        (Told("tcp_rcv_buf 1 fevr", 0, b""), AT_END),
        (Told("tcp_rcv_buf 1 pol", -50, b""), KEPT),
        (Told("tcp_get_buf 1 fevr", 256, b"\x00\x00\x00\x64"), KEPT),
        (Told("tcp_rel_buf 1 2", 0, b""), KEPT),
    ];
    for (told, left) in table {
        expect_left(&rt, rt.alloc(), told, left)?;
    }
    Ok(())
}

const DATAGRAM: &[u8] = b"\x0a\x00\x00\x02\x07\xd0hi";

// The first six bytes are 10.0.0.2 and the port 2000, or 49152.
#[test]
fn what_a_datagram_and_a_connection_leave(rt: HostRuntime) -> Result<(), Fail> {
    let table = [
        (
            Told("udp_rcv_dat 1 9 fevr", 2, DATAGRAM),
            "udp_snd_dat 1 10.0.0.2:2000 x6869 pol",
        ),
        (
            Told("udp_rcv_dat 1 9 fevr", 0, &DATAGRAM[..6]),
            "udp_snd_dat 1 10.0.0.2:2000 x pol",
        ),
        (
            Told("udp_rcv_dat 1 1 fevr", -58, &DATAGRAM[..7]),
            "udp_snd_dat 1 10.0.0.2:2000 x68 pol",
        ),
        (Told("udp_rcv_dat 1 9 pol", -50, DATAGRAM), KEPT),
        (Told("udp_rcv_dat 1 9 nblk", -57, b""), KEPT),
        (Told("udp_snd_dat 1 10.0.0.9:9 x0708 fevr", 2, b""), KEPT),
        (
            Told("tcp_acp_cep 1 1 fevr", 0, b"\x0a\x00\x00\x02\xc0\x00"),
            "udp_snd_dat 1 10.0.0.2:49152 x010203 pol",
        ),
        (Told("tcp_acp_cep 1 1 pol", -50, &DATAGRAM[..6]), KEPT),
    ];
    for (told, left) in table {
        expect_left(&rt, rt.alloc(), told, left)?;
    }
    Ok(())
}

// Task 1 has the bytes 16, 17 and 18 in its buffer, and sends what the line leaves of them.
#[test]
fn what_a_send_leaves(rt: HostRuntime) -> Result<(), Fail> {
    let sent = "tcp_snd_dat 1 x101112 fevr";
    let handed_over = "tcp_snd_buf 1 x101112";
    let own_sent = "tcp_snd_dat 1 x0708 fevr";
    let own_handed_over = "tcp_snd_buf 1 x0708";
    let table = [
        (Does::Sends, Told(sent, 2, b""), "tcp_snd_dat 1 x12 fevr"),
        (Does::Sends, Told(sent, 3, b""), "tcp_snd_dat 1 x fevr"),
        (Does::Sends, Told(sent, 0, b""), sent),
        (Does::Sends, Told(sent, -52, b""), sent),
        (Does::Sends, Told(sent, -57, b""), sent),
        (
            Does::HandsOver,
            Told(handed_over, 0, b""),
            "tcp_snd_dat 1 x fevr",
        ),
        (Does::HandsOver, Told(handed_over, -50, b""), sent),
        (Does::Calls(own_sent), Told(own_sent, 2, b""), sent),
        (
            Does::Calls(own_handed_over),
            Told(own_handed_over, 0, b""),
            sent,
        ),
    ];
    for (line, told, left) in table {
        let lines = [Does::Fill(3), line, Does::Sends];
        expect_task(&rt, rt.alloc(), &lines, &[told, Told(left, 0, b"")])?;
    }
    Ok(())
}

fn routine_told(alloc: Global, code: i32, bytes: &[u8]) -> Result<Handler, NoMemory> {
    Ok(Handler::Cbr {
        cbr: ObjId(1),
        udp: true,
        cep: CepId(1),
        func: FnCode::UdpRcv,
        code: Er(code),
        bytes: Bytes::of(alloc, bytes)?,
    })
}

// Its buffer has all bytes, those of the sender too, and it has no peer; its first answer is the code, on which it leaves the loop.
#[test]
fn a_callback_routine_begins_with_what_it_is_told(rt: HostRuntime) -> Result<(), Fail> {
    let all = "udp_snd_dat 1 0.0.0.0:0 x0a00000207d06869 pol";
    let none = "udp_snd_dat 1 0.0.0.0:0 x pol";
    let table = [
        (2, DATAGRAM, all, "get_tid"),
        (0, b"", none, "finish"),
        (-50, b"", none, "finish"),
    ];
    let leaving = [
        Does::Loop(1),
        Does::UntilEnd,
        Does::Calls("get_tid"),
        Does::Pool,
    ];
    for (code, bytes, sent, first) in table {
        let routine = routine_told(rt.alloc(), code, bytes)?;
        let calls = [Told(sent, 8, b""), Told("finish", 0, b"")];
        expect_handler(&rt, rt.alloc(), 0, &routine, &[Does::AnswersBack], &calls)?;
        expect_handler(
            &rt,
            rt.alloc(),
            0,
            &routine,
            &leaving,
            &[Told(first, 1, b"")],
        )?;
    }
    Ok(())
}
