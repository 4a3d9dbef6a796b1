//! What is left to do after the tasks have done their part of a call.

ghost use Rattle.std.specs.Prelude.{◌≡◌, ◌<◌, ◌^◌, ◌≤◌, false, length};
ghost use Rattle.it_types.specs.Callers.{is_poll};
ghost use Rattle.k_core.specs.PartsRows.{done_at_once, waits_or_done};
ghost use Rattle.k_core.specs.Does.{Does};

use crate::Done;
use crate::done::{answer_of, ending, or_nobody};
use crate::parts::Parts;
use arrayvec::ArrayVec;
use it_types::{CallNo, Ctx, E_RLWAI, Small, Tmo};
use spec_kernel::{Did, WaitReason};

impl Parts {
    /// A call that is met at once: the call that it has ended ends with `E_RLWAI`.
    pub(crate) fn finish(&mut self, ctx: Ctx, did: Did) -> Done
        ensures does { Does self.new result (done_at_once self.old ctx did) }
        ensures few { length result.ends.items ≤ 1 }
    {
        let mut ends = ArrayVec::new();
        if let Some(wait) = self.end_freed(did.freed) {
            ends.push(ending(wait, E_RLWAI, Small::new()));
        }
        Done {
            ans: answer_of(ctx, did),
            ends,
            gone: or_nobody(did.gone),
            begun: or_nobody(did.begun),
        }
    }

    /// A call that may have to wait.
    pub(crate) fn wait_or_finish(
        &mut self,
        ctx: Ctx,
        did: Did,
        reason: WaitReason,
        tmo: Tmo,
        no: CallNo,
    ) -> Done
        requires room { is_poll tmo ≡ false → length self.old.waits < 16 }
        requires now { self.old.clock.now < 2 ^ 60 }
        requires ranks { self.old.tasks.next_rank < 2 ^ 60 }
        ensures does { Does self.new result (waits_or_done self.old ctx did reason tmo no) }
        ensures few { length result.ends.items ≤ 1 }
    {
        if did.wait {
            self.accept(ctx.caller(), reason, tmo, no)
        } else {
            self.finish(ctx, did)
        }
    }
}
