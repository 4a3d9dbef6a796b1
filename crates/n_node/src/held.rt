//! The answers that tasks hold until they return.

ghost use Rattle.std.specs.Prelude.{◌≡◌, IfOk, None, Some, slice_set};
ghost use Rattle.spec_lists.specs.Tables.{get, empty_table};
ghost use Rattle.spec_kernel.specs.Ids.{greatest_id};
ghost use Rattle.spec_node.specs.NodeStep.{forgetting, held_answer};

use it_types::{Ans, NoMemory, TABLE_PLACES, TaskId};
use spec_node::Held;
use std::alloc::Global;

/// No task holds an answer.
pub fn no_answers(alloc: Global) -> Result<Vec<Option<Held>>, NoMemory>
    ensures { IfOk result (λ held. held.items ≡ empty_table greatest_id) }
{
    let mut held = Vec::with_capacity(alloc, TABLE_PLACES)?;
    for _ in 0..TABLE_PLACES {
        held.push(None)?;
    }
    Ok(held)
}

/// Takes the answer that the task holds.
pub fn take_answer(held: &mut Vec<Option<Held>>, task: TaskId) -> Option<Held>
    ensures answer { result ≡ get held.old.items task.0 }
    ensures after { held.new.items ≡ slice_set held.old.items task.0 None }
{
    let place = task.0 as usize;
    if place < held.len() {
        held[place].take()
    } else {
        None
    }
}

/// The task holds this answer.
pub fn hold(held: &mut Vec<Option<Held>>, task: TaskId, answer: Held)
    ensures { held.new.items ≡ slice_set held.old.items task.0 (Some answer) }
{
    let place = task.0 as usize;
    if place < held.len() {
        held[place] = Some(answer);
    }
}

/// A task that has ended, 0 for none, holds no answer, nor does its next life.
pub fn forget(held: &mut Vec<Option<Held>>, gone: TaskId)
    ensures { held.new.items ≡ forgetting gone held.old.items }
{
    if gone.0 != 0 {
        take_answer(held, gone);
    }
}

/// What a task that holds this returns with.
pub fn held_answer(held: Option<Held>) -> Ans
    ensures { result ≡ held_answer held }
{
    match held {
        Some(held) => Ans::Now(held.code, held.bytes),
        None => Ans::Quiet,
    }
}
