//! Bodies, and what they do, as the lines of its calls.

use it_types::{
    Bytes, CepId, EndPt, Er, Handler, List, NoMemory, NodeId, Req, TaskId, Tmo, read_call,
    spell_into,
};
use s_exec::Exec;
use spec_script::{Body, Line, Want};
use std::alloc::Global;
use std::process::Abort;
use std::test::*;

/// A line of a body.
#[derive(Clone, Copy)]
pub(crate) enum Does<'a> {
    /// Makes this call, as it is written.
    Calls(&'a str),
    /// Sends the buffer.
    Sends,
    /// Sends the buffer in bytes that were borrowed.
    HandsOver,
    /// Sends the buffer to the peer.
    AnswersBack,
    Fill(u32),
    Loop(u32),
    Pool,
    UntilEnd,
    UntilFail,
    UntilEmpty,
}

pub(crate) fn body_of(alloc: Global, lines: &[Does<'_>]) -> Result<Body, Fail> {
    let mut made = List::new(alloc);
    for line in lines {
        made.push(line_of(alloc, *line)?)?;
    }
    Ok(Body { lines: made })
}

fn line_of(alloc: Global, line: Does<'_>) -> Result<Line, Fail> {
    Ok(match line {
        Does::Calls(call) => Line::Call {
            req: read_call(alloc, call.as_bytes())?.ok_or("no call")?,
            buf: false,
            peer: false,
        },
        Does::Sends | Does::HandsOver | Does::AnswersBack => Line::Call {
            req: sending(alloc, line),
            buf: true,
            peer: matches!(line, Does::AnswersBack),
        },
        Does::Fill(bytes) => Line::Fill(bytes),
        Does::Loop(rounds) => Line::Loop(rounds),
        Does::Pool => Line::Pool,
        Does::UntilEnd => Line::UntilEnd,
        Does::UntilFail => Line::UntilFail,
        Does::UntilEmpty => Line::UntilEmpty,
    })
}

// The call of a line that sends the buffer, which has no data itself.
fn sending(alloc: Global, line: Does<'_>) -> Req {
    let cep = CepId(1);
    let load = Bytes::new(alloc);
    match line {
        Does::HandsOver => Req::TcpSndBuf { cep, load },
        Does::AnswersBack => Req::UdpSndDat {
            cep,
            dest: EndPt { addr: 0, port: 0 },
            load,
            tmo: Tmo::Pol,
        },
        _ => Req::TcpSndDat {
            cep,
            load,
            tmo: Tmo::Fevr,
        },
    }
}

/// The next call is this one; a handler's finish is the word `finish`.
pub(crate) fn expect_next(
    rt: &impl Abort,
    alloc: Global,
    exec: &mut Exec<'_>,
    call: &str,
) -> Result<(), NoMemory> {
    let mut line = Vec::new(alloc);
    match exec.next(alloc)? {
        Want::Call(req) => spell_into(alloc, &req, &mut line)?,
        Want::Finish => line.extend_from_slice(b"finish")?,
    }
    assert_eq!(rt; line.as_slice(), call.as_bytes(), "at {call}");
    Ok(())
}

/// A call, and the code and the bytes that answer it.
#[derive(Clone, Copy)]
pub(crate) struct Told<'a>(pub(crate) &'a str, pub(crate) i32, pub(crate) &'a [u8]);

/// The next calls are these, with their answers.
pub(crate) fn expect_calls(
    rt: &impl Abort,
    alloc: Global,
    exec: &mut Exec<'_>,
    calls: &[Told<'_>],
) -> Result<(), NoMemory> {
    for call in calls {
        let Told(text, code, bytes) = *call;
        expect_next(rt, alloc, exec, text)?;
        exec.told(alloc, Er(code), bytes)?;
    }
    Ok(())
}

/// The calls of task 1 of node 0 are these, with their answers.
pub(crate) fn expect_task(
    rt: &impl Abort,
    alloc: Global,
    lines: &[Does<'_>],
    calls: &[Told<'_>],
) -> Result<(), Fail> {
    let body = body_of(alloc, lines)?;
    let mut exec = Exec::start(alloc, &body, NodeId(0), TaskId(1), None)?;
    expect_calls(rt, alloc, &mut exec, calls)?;
    Ok(())
}

/// Those of a handler are these, while task 3 of the node runs.
pub(crate) fn expect_handler(
    rt: &impl Abort,
    alloc: Global,
    node: u8,
    handler: &Handler,
    lines: &[Does<'_>],
    calls: &[Told<'_>],
) -> Result<(), Fail> {
    let body = body_of(alloc, lines)?;
    let mut exec = Exec::start(alloc, &body, NodeId(node), TaskId(3), Some(handler))?;
    expect_calls(rt, alloc, &mut exec, calls)?;
    Ok(())
}
