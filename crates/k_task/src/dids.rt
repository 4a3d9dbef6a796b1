//! What calls come to.

ghost use Rattle.std.specs.Prelude.{◌≡◌};
ghost use Rattle.spec_kernel.specs.TaskRows.{only_if, with_begun, with_code, with_freed, with_value, with_wait};

use it_types::{E_OK, Er, TaskId};
use spec_kernel::Did;

/// The call has this code, and nothing else is told.
pub(crate) fn with_code(code: Er) -> Did
    ensures { result ≡ with_code code }
{
    Did {
        code,
        value: None,
        wait: false,
        freed: None,
        gone: None,
        begun: None,
    }
}

/// The call has a number in its answer.
pub(crate) fn with_value(value: u32) -> Did
    ensures { result ≡ with_value value }
{
    Did {
        value: Some(value),
        ..with_code(E_OK)
    }
}

/// The caller waits, but for a poll.
pub(crate) fn with_wait() -> Did
    ensures { result ≡ with_wait }
{
    Did {
        wait: true,
        ..with_code(E_OK)
    }
}

/// The call of a task ends, if there is one.
pub(crate) fn with_freed(freed: Option<TaskId>) -> Did
    ensures { result ≡ with_freed freed }
{
    Did {
        freed,
        ..with_code(E_OK)
    }
}

/// The task begins.
pub(crate) fn with_begun(task: TaskId) -> Did
    ensures { result ≡ with_begun task }
{
    Did {
        begun: Some(task),
        ..with_code(E_OK)
    }
}

/// The task, where the test holds.
pub(crate) fn only_if(test: bool, task: TaskId) -> Option<TaskId>
    ensures { result ≡ only_if test task }
{
    if test { Some(task) } else { None }
}
