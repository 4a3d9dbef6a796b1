use arrayvec::ArrayVec;
use it_types::CallNo;
use k_sync::{Dtqs, Flags, Sems};
use k_task::Tasks;
use k_time::Clock;
use spec_kernel::WaitingCall;
use std::marker::Model;

/// The most calls that can wait: one of each task.
pub(crate) const MAX_WAITS: usize = 16;

/// The parts of a kernel, the calls that wait in the order of their ranks, and the greatest number with which one waited.
#[derive(Debug, Drop)]
pub(crate) struct Parts {
    pub(crate) clock: Clock,
    pub(crate) tasks: Tasks,
    pub(crate) sems: Sems,
    pub(crate) flags: Flags,
    pub(crate) dtqs: Dtqs,
    pub(crate) waits: ArrayVec<WaitingCall, MAX_WAITS>,
    pub(crate) last_call: CallNo,
}

impl Model for Parts {
    ghost use Rattle.spec_kernel.specs.Parts.{PlainParts};

    ghost Value = { PlainParts };

    ghost view = { λ p. record { clock = p.clock; tasks = p.tasks; sems = p.sems; flags = p.flags; dtqs = p.dtqs; waits = p.waits.items; last_call = p.last_call.0 } };
}
