ghost use Rattle.std.specs.Prelude.{◌≡◌, ◌++◌, OnOk, codes, decimal};
ghost use Rattle.it_types.specs.Lines.{request_text};
ghost use Rattle.spec_trace.specs.Trace.{answer_text, caller_text, event_text};

use crate::words::put_result;
use it_types::words::{put_number, put_numbered, put_word};
use it_types::{Ans, Ctx, Event, NoMemory, NodeId, Req, TaskId, spell_into};
use std::alloc::Global;

fn put_task(out: &mut Vec<u8>, task: TaskId) -> Result<(), NoMemory>
    ensures { OnOk result (out.new.items ≡ out.old.items ++ (codes " task " ++ (decimal task.0 ++ codes " "))) }
{
    put_numbered(out, b" task ", task.0)?;
    put_word(out, b" ")
}

fn put_caller(out: &mut Vec<u8>, caller: Ctx) -> Result<(), NoMemory>
    ensures { OnOk result (out.new.items ≡ out.old.items ++ caller_text caller) }
{
    match caller {
        Ctx::Task(task) => put_task(out, task),
        Ctx::Handler => put_word(out, b" handler "),
    }
}

fn put_call(
    alloc: Global,
    out: &mut Vec<u8>,
    node: NodeId,
    caller: Ctx,
    request: &Req,
) -> Result<(), NoMemory>
    ensures { OnOk result (out.new.items ≡ out.old.items ++ (decimal node.0 ++ (caller_text caller ++ request_text request.now))) }
{
    put_number(out, node.0)?;
    put_caller(out, caller)?;
    spell_into(alloc, request, out)
}

fn put_node(out: &mut Vec<u8>, node: NodeId, word: &[u8]) -> Result<(), NoMemory>
    ensures { OnOk result (out.new.items ≡ out.old.items ++ (decimal node.0 ++ word.now)) }
{
    put_number(out, node.0)?;
    put_word(out, word)
}

fn put_return(out: &mut Vec<u8>, node: NodeId, task: TaskId) -> Result<(), NoMemory>
    ensures { OnOk result (out.new.items ≡ out.old.items ++ (decimal node.0 ++ (codes " return " ++ decimal task.0))) }
{
    put_number(out, node.0)?;
    put_numbered(out, b" return ", task.0)
}

pub fn put_event(alloc: Global, out: &mut Vec<u8>, event: &Event) -> Result<(), NoMemory>
    ensures { OnOk result (out.new.items ≡ out.old.items ++ event_text event.now) }
{
    match event {
        Event::Call(node, caller, request) => put_call(alloc, out, *node, *caller, request),
        Event::Return(node, task) => put_return(out, *node, *task),
        Event::Begin(node) => put_node(out, *node, b" begin"),
        Event::Finish(node) => put_node(out, *node, b" finish"),
        Event::Tick(node) => put_node(out, *node, b" tick"),
        Event::Deliver(pack) => put_numbered(out, b"deliver ", pack.0),
        Event::Stop => put_word(out, b"stop"),
    }
}

pub fn put_answer(out: &mut Vec<u8>, answer: &Ans) -> Result<(), NoMemory>
    ensures { OnOk result (out.new.items ≡ out.old.items ++ answer_text answer.now) }
{
    match answer {
        Ans::Now(code, bytes) => put_result(out, b" = ", *code, bytes.as_slice()),
        Ans::Pends(call) => put_numbered(out, b" = pend ", call.0),
        Ans::Later(call) => put_numbered(out, b" = later ", call.0),
        Ans::Quiet => Ok(()),
    }
}
