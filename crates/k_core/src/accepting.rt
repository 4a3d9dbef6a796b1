//! Calls that aren't met at once.

ghost use Rattle.std.specs.Prelude.{◌≡◌, ◌<◌, ◌^◌, ◌≤◌, false, length};
ghost use Rattle.it_types.specs.Callers.{is_poll};
ghost use Rattle.spec_kernel.specs.Rows.{deadline_of};
ghost use Rattle.k_core.specs.PartsRows.{accepted, with_wait};
ghost use Rattle.k_core.specs.Does.{Does};

use crate::Done;
use crate::done::answered;
use crate::parts::Parts;
use it_types::{CallNo, E_TMOUT, Small, TaskId, Tmo};
use spec_kernel::{KAns, WaitReason, WaitingCall};

/// The tick at which a call with this time-out ends, accepted at the tick `now`.
fn deadline_of(now: u64, tmo: Tmo) -> Option<u64>
    requires { now < 2 ^ 60 }
    ensures { result ≡ deadline_of now tmo }
{
    match tmo {
        Tmo::Ms(ticks) => Some(now + ticks as u64 + 1),
        Tmo::Pol | Tmo::Nblk | Tmo::Fevr => None,
    }
}

impl Parts {
    /// The task waits under this number, the last in rank.
    pub(crate) fn begin_wait(&mut self, task: TaskId, reason: WaitReason, tmo: Tmo, no: CallNo)
        requires room { length self.old.waits < 16 }
        requires now { self.old.clock.now < 2 ^ 60 }
        requires ranks { self.old.tasks.next_rank < 2 ^ 60 }
        ensures { self.new ≡ with_wait self.old task reason tmo no }
    {
        let deadline = deadline_of(self.clock.now(), tmo);
        self.tasks.wait(task);
        let rank = self.tasks.rank();
        self.waits.push(WaitingCall {
            call: no,
            task,
            reason,
            deadline,
            rank,
        });
        self.last_call = no;
    }

    /// A poll is over, any other call waits.
    pub(crate) fn accept(&mut self, task: TaskId, reason: WaitReason, tmo: Tmo, no: CallNo) -> Done
        requires room { is_poll tmo ≡ false → length self.old.waits < 16 }
        requires now { self.old.clock.now < 2 ^ 60 }
        requires ranks { self.old.tasks.next_rank < 2 ^ 60 }
        ensures does { Does self.new result (accepted self.old task reason tmo no) }
        ensures few { length result.ends.items ≤ 1 }
    {
        if tmo.is_poll() {
            answered(KAns::Now(E_TMOUT, Small::new()))
        } else {
            self.begin_wait(task, reason, tmo, no);
            answered(KAns::Pends)
        }
    }
}
