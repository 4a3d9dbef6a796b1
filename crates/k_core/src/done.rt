//! What a call of the kernel comes to.

ghost use Rattle.std.specs.Prelude.{◌≡◌, []};
ghost use Rattle.it_types.specs.Callers.{nobody};
ghost use Rattle.spec_kernel.specs.Settle.{ending, is_outside};
ghost use Rattle.spec_kernel.specs.Rows.{answer_of, or_nobody, word_bytes};

use arrayvec::ArrayVec;
use it_types::{Ctx, Er, Small, TaskId};
use spec_kernel::{Did, KAns, KEnd, WaitReason, WaitingCall};

/// What a kernel call does beside the kernel's own state: its answer, the ends of calls in their order, and the tasks that ended
/// and began, 0 for none.
#[derive(Debug, Drop)]
pub struct Done {
    pub ans: KAns,
    pub ends: ArrayVec<KEnd, 32>,
    pub gone: TaskId,
    pub begun: TaskId,
}

/// The answer alone.
pub(crate) fn answered(ans: KAns) -> Done
    ensures answer { result.ans ≡ ans }
    ensures ends { result.ends.items ≡ [] }
    ensures gone { result.gone ≡ nobody }
    ensures begun { result.begun ≡ nobody }
{
    Done {
        ans,
        ends: ArrayVec::new(),
        gone: TaskId(0),
        begun: TaskId(0),
    }
}

pub(crate) fn or_nobody(task: Option<TaskId>) -> TaskId
    ensures { result ≡ or_nobody task }
{
    match task {
        Some(task) => task,
        None => TaskId(0),
    }
}

/// The bytes of a number, if there is one.
fn word_bytes(value: Option<u32>) -> Small
    ensures { result ≡ word_bytes value }
{
    match value {
        Some(value) => Small::of_word(value),
        None => Small::new(),
    }
}

/// The answer to a call on tasks: a caller that has ended is answered nothing.
pub(crate) fn answer_of(ctx: Ctx, did: Did) -> KAns
    ensures { result ≡ answer_of ctx did }
{
    match did.gone {
        Some(task) if task.0 == ctx.caller().0 => KAns::Quiet,
        _ => KAns::Now(did.code, word_bytes(did.value)),
    }
}

/// Whether the call is one of the network part.
pub(crate) fn is_outside(reason: WaitReason) -> bool
    ensures { result ≡ is_outside reason }
{
    match reason {
        WaitReason::Outside => true,
        WaitReason::Semaphore(_)
        | WaitReason::Flag(_)
        | WaitReason::Send(_, _)
        | WaitReason::Receive(_)
        | WaitReason::Sleep
        | WaitReason::Delay => false,
    }
}

/// The end of a call with a code and bytes.
pub(crate) fn ending(wait: WaitingCall, code: Er, bytes: Small) -> KEnd
    ensures { result ≡ ending wait code bytes }
{
    KEnd {
        call: wait.call,
        task: wait.task,
        code,
        bytes,
        outside: is_outside(wait.reason),
    }
}
