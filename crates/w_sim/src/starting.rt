//! Interpreters before the first lines of their bodies.

ghost use Rattle.std.specs.Prelude.{◌≡◌, ◌+◌, IfOk, OnOk, option_copied};
ghost use Rattle.spec_kernel.specs.Ids.{greatest_id};
ghost use Rattle.spec_sim.specs.Bodies.{after_marks, handler_started, task_started, tasks_started};

use crate::body::{body_of, handler_body};
use it_types::{Handler, Mark, NoMemory, NodeId, TABLE_PLACES, TaskId};
use s_exec::Exec;
use spec_script::Decl;
use std::alloc::Global;

/// The task; none for one that isn't declared.
pub fn task_started<'a>(
    alloc: Global,
    id: NodeId,
    decls: &'a [Decl],
    task: TaskId,
) -> Result<Option<Exec<'a>>, NoMemory>
    ensures { IfOk result (λ exec. exec ≡ task_started id decls.now task) }
{
    match body_of(decls, task) {
        Some(body) => Ok(Some(Exec::start(alloc, body, id, task, None)?)),
        None => Ok(None),
    }
}

/// All tasks of a node, by their ids.
pub fn tasks_started<'a>(
    alloc: Global,
    id: NodeId,
    decls: &'a [Decl],
) -> Result<Vec<Option<Exec<'a>>>, NoMemory>
    ensures { IfOk result (λ tasks. tasks.items ≡ tasks_started id decls.now (greatest_id + 1) 0) }
{
    let mut tasks = Vec::with_capacity(alloc, TABLE_PLACES)?;
    for at in 0..TABLE_PLACES {
        tasks.push(task_started(alloc, id, decls, TaskId(at as u32))?)?;
    }
    Ok(tasks)
}

/// The handler that has begun; none where none has.
pub fn handler_started<'a>(
    alloc: Global,
    id: NodeId,
    decls: &'a [Decl],
    begun: Option<&Handler>,
) -> Result<Option<Exec<'a>>, NoMemory>
    ensures { IfOk result (λ exec. exec ≡ handler_started id decls.now (option_copied begun.entry)) }
{
    let Some(handler) = begun else {
        return Ok(None);
    };
    match handler_body(decls, handler) {
        Some(body) => Ok(Some(Exec::start(alloc, body, id, TaskId(0), Some(handler))?)),
        None => Ok(None),
    }
}

/// Each task that began is before the first line of its body.
pub fn begin_anew<'a>(
    tasks: &mut Vec<Option<Exec<'a>>>,
    alloc: Global,
    id: NodeId,
    decls: &'a [Decl],
    marks: &[Mark],
) -> Result<(), NoMemory>
    ensures { OnOk result (tasks.new.items ≡ after_marks id decls.now marks.now tasks.old.items) }
{
    for mark in marks {
        if let Mark::Begun { task } = mark {
            let at = task.0 as usize;
            if at < tasks.len() {
                tasks[at] = task_started(alloc, id, decls, *task)?;
            }
        }
    }
    Ok(())
}
