//! What is left to do after the objects have done their part of a call.

ghost use Rattle.std.specs.Prelude.{◌≡◌, ◌<◌, ◌^◌, ◌≤◌, false, length};
ghost use Rattle.it_types.specs.Callers.{is_poll};
ghost use Rattle.k_core.specs.PartsRows.{done_by_objects, handed_over};
ghost use Rattle.k_core.specs.Does.{Does};

use crate::Done;
use crate::done::answered;
use crate::parts::Parts;
use it_types::{CallNo, Ctx, Small, Synced, Tmo};
use spec_kernel::{KAns, WaitReason};

impl Parts {
    /// A call on an object: it is answered at once, or waits.
    pub(crate) fn answer_or_accept(
        &mut self,
        ctx: Ctx,
        synced: Synced,
        reason: WaitReason,
        tmo: Tmo,
        no: CallNo,
    ) -> Done
        requires room { is_poll tmo ≡ false → length self.old.waits < 16 }
        requires now { self.old.clock.now < 2 ^ 60 }
        requires ranks { self.old.tasks.next_rank < 2 ^ 60 }
        ensures does { Does self.new result (done_by_objects self.old ctx synced reason tmo no) }
        ensures few { length result.ends.items ≤ 1 }
    {
        match synced {
            Synced::Took(code, bytes) => answered(KAns::Now(code, bytes)),
            Synced::MustWait => self.accept(ctx.caller(), reason, tmo, no),
            Synced::Refused(code) => answered(KAns::Now(code, Small::new())),
        }
    }

    /// A call on a data queue, which may end that of another task.
    pub(crate) fn answer_or_hand_over(
        &mut self,
        ctx: Ctx,
        synced: Synced,
        reason: WaitReason,
        tmo: Tmo,
        no: CallNo,
    ) -> Done
        requires room { is_poll tmo ≡ false → length self.old.waits < 16 }
        requires now { self.old.clock.now < 2 ^ 60 }
        requires ranks { self.old.tasks.next_rank < 2 ^ 60 }
        ensures does { Does self.new result (handed_over (done_by_objects self.old ctx synced reason tmo no)) }
        ensures few { length result.ends.items ≤ 1 }
    {
        let mut done = self.answer_or_accept(ctx, synced, reason, tmo, no);
        self.end_handed(&mut done);
        done
    }
}
