//! Searches in the calls that wait.

ghost use Rattle.std.specs.Prelude.{◌≡◌, None};
ghost use Rattle.std.specs.List.{position};
ghost use Rattle.spec_kernel.specs.PlainKernel.{is_of};
ghost use Rattle.k_core.specs.Found.{paired};
ghost use Rattle.spec_lists.specs.First.{take_first};

use crate::parts::MAX_WAITS;
use arrayvec::ArrayVec;
use it_types::TaskId;
use spec_kernel::WaitingCall;

/// The place of the call of a task.
pub(crate) fn place_of(waits: &[WaitingCall], task: TaskId) -> Option<usize>
    ensures { result ≡ position (is_of task.0) waits.now }
{
    waits.iter().position(|wait| wait.task.0 == task.0)
}

/// Takes out the call of a task.
pub(crate) fn take_out(
    waits: &mut ArrayVec<WaitingCall, MAX_WAITS>,
    task: TaskId,
) -> Option<WaitingCall>
    ensures call { take_first (is_of task.0) waits.old.items ≡ paired result waits.new.items }
    ensures none { result ≡ None → waits.new.items ≡ waits.old.items }
{
    match place_of(waits.as_slice(), task) {
        Some(place) => Some(waits.remove(place)),
        None => None,
    }
}
