//! What a task or a handler wants, and what it is told.

ghost use Rattle.std.specs.Prelude.{◌≡◌, IfOk, OnOk, slice_set};
ghost use Rattle.std.specs.Option.{option_map};
ghost use Rattle.spec_lists.specs.Tables.{get};
ghost use Rattle.spec_script.specs.Interpreter.{up_to_call};
ghost use Rattle.spec_sim.specs.Bodies.{answered_by, handler_wants, requested, task_request};

use it_types::{Ans, E_WBLK, NoMemory, Req, TaskId};
use s_exec::Exec;
use spec_script::Want;
use std::alloc::Global;

/// What a handler does next: it finishes where it isn't declared.
pub fn handler_wants<'a>(handler: &mut Option<Exec<'a>>, alloc: Global) -> Result<Want, NoMemory>
    ensures want { IfOk result (λ want. want ≡ handler_wants handler.old) }
    ensures place { OnOk result (handler.new ≡ option_map up_to_call handler.old) }
{
    match handler {
        Some(exec) => exec.next(alloc),
        None => Ok(Want::Finish),
    }
}

/// A task doesn't finish, but ends.
fn requested(want: Want) -> Req
    ensures { result ≡ requested want }
{
    match want {
        Want::Call(req) => req,
        Want::Finish => Req::ExtTsk,
    }
}

/// The next call of a task: it ends where it isn't declared.
fn task_request<'a>(task: &mut Option<Exec<'a>>, alloc: Global) -> Result<Req, NoMemory>
    ensures request { IfOk result (λ request. request ≡ task_request task.old) }
    ensures place { OnOk result (task.new ≡ option_map up_to_call task.old) }
{
    match task {
        Some(exec) => Ok(requested(exec.next(alloc)?)),
        None => Ok(Req::ExtTsk),
    }
}

/// The next call of this task of all.
pub fn next_request<'a>(
    tasks: &mut Vec<Option<Exec<'a>>>,
    alloc: Global,
    task: TaskId,
) -> Result<Req, NoMemory>
    ensures request { IfOk result (λ request. request ≡ task_request (get tasks.old.items task.0)) }
    ensures place { OnOk result (tasks.new.items ≡ slice_set tasks.old.items task.0 (option_map up_to_call (get tasks.old.items task.0))) }
{
    let at = task.0 as usize;
    if at < tasks.len() {
        task_request(&mut tasks[at], alloc)
    } else {
        Ok(Req::ExtTsk)
    }
}

/// Tells the answer of a call. One that is accepted and not waited for is answered `E_WBLK`; a task that waits is told later.
pub fn answer<'a>(asked: &mut Option<Exec<'a>>, alloc: Global, ans: &Ans) -> Result<(), NoMemory>
    ensures { OnOk result (asked.new ≡ option_map (answered_by ans.now) asked.old) }
{
    if let Some(exec) = asked {
        match ans {
            Ans::Now(code, bytes) => exec.told(alloc, *code, bytes.as_slice())?,
            Ans::Later(_) => exec.told(alloc, E_WBLK, &[])?,
            Ans::Pends(_) | Ans::Quiet => {}
        }
    }
    Ok(())
}

/// Tells this task of all.
pub fn answer_task<'a>(
    tasks: &mut Vec<Option<Exec<'a>>>,
    alloc: Global,
    task: TaskId,
    ans: &Ans,
) -> Result<(), NoMemory>
    ensures { OnOk result (tasks.new.items ≡ slice_set tasks.old.items task.0 (option_map (answered_by ans.now) (get tasks.old.items task.0))) }
{
    let at = task.0 as usize;
    if at < tasks.len() {
        answer(&mut tasks[at], alloc, ans)?;
    }
    Ok(())
}
