//! The task that a request names.

ghost use Rattle.std.specs.Prelude.{◌≡◌};
ghost use Rattle.spec_kernel.specs.TaskRows.{is_wrong_task, named};

use it_types::{Ctx, GREATEST_ID, TaskId};

/// The task that a request names: 0 is the caller.
pub(crate) fn named(ctx: Ctx, task: TaskId) -> TaskId
    ensures { result ≡ named ctx task }
{
    if task.0 == 0 { ctx.caller() } else { task }
}

/// The id names no task: 0 in a handler, or one above the greatest.
pub(crate) fn is_wrong_task(ctx: Ctx, task: TaskId) -> bool
    ensures { result ≡ is_wrong_task ctx task }
{
    (task.0 == 0 && ctx.is_handler()) || task.0 > GREATEST_ID
}
