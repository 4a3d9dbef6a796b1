//! Calls with which tasks sleep, are woken, wait for a delay or are released (µITRON4.0 section 4.2).

ghost use Rattle.std.specs.Prelude.{◌≡◌};
ghost use Rattle.spec_lists.specs.Refusal.{first_refusal};
ghost use Rattle.spec_kernel.specs.TaskRows.{can_wup, can_wup_refusals, dly_tsk, rel_wai, rel_wai_refusals, sleeping, tslp_tsk, tslp_tsk_refusals, wup_tsk, wup_tsk_refusals};

use crate::Tasks;
use crate::blocks::{GREATEST_COUNT, is_active, wakeups_of};
use crate::dids::{only_if, with_code, with_freed, with_wait};
use crate::named::{is_wrong_task, named};
use it_types::{Ctx, E_ID, E_NOEXS, E_OBJ, E_OK, E_PAR, E_QOVR, Er, TaskId, Tmo, first_refusal};
use spec_kernel::{Did, TaskWait};

fn tslp_tsk_refusal(tmo: Tmo) -> Option<Er>
    ensures { result ≡ first_refusal (tslp_tsk_refusals tmo) }
{
    first_refusal!(tmo.is_nblk() => E_PAR)
}

impl Tasks {
    /// The caller takes a wake-up that is kept for it, and sleeps without one (`tslp_tsk`). A poll that isn't met changes
    /// nothing.
    pub fn tslp_tsk(&mut self, ctx: Ctx, tmo: Tmo) -> Did
        ensures tasks { self.new ≡ (tslp_tsk self.old ctx tmo).tasks }
        ensures did { result ≡ (tslp_tsk self.old ctx tmo).did }
    {
        match tslp_tsk_refusal(tmo) {
            Some(code) => with_code(code),
            None => self.sleep(ctx.caller(), tmo),
        }
    }

    fn sleep(&mut self, task: TaskId, tmo: Tmo) -> Did
        ensures tasks { self.new ≡ (sleeping self.old task tmo).tasks }
        ensures did { result ≡ (sleeping self.old task tmo).did }
    {
        if self.wakeups(task) > 0 {
            self.take_wakeup(task);
            return with_code(E_OK);
        }
        if !tmo.is_poll() {
            self.wait_for(task, TaskWait::Sleep);
        }
        with_wait()
    }

    fn wup_tsk_refusal(&self, ctx: Ctx, task: TaskId) -> Option<Er>
        ensures { result ≡ first_refusal (wup_tsk_refusals self.now ctx task) }
    {
        let block = self.block(named(ctx, task));
        first_refusal! {
            is_wrong_task(ctx, task) => E_ID,
            block.is_none() => E_NOEXS,
            !is_active(block) => E_OBJ,
            !self.is_asleep(named(ctx, task)) && wakeups_of(block) >= GREATEST_COUNT => E_QOVR,
        }
    }

    /// One more wake-up for a task (`wup_tsk`). The call of one that sleeps is met by it: `freed` names that task, and `wake`
    /// ends its wait. A handler may call it.
    pub fn wup_tsk(&mut self, ctx: Ctx, task: TaskId) -> Did
        ensures tasks { self.new ≡ (wup_tsk self.old ctx task).tasks }
        ensures did { result ≡ (wup_tsk self.old ctx task).did }
    {
        match self.wup_tsk_refusal(ctx, task) {
            Some(code) => with_code(code),
            None => {
                let task = named(ctx, task);
                self.add_wakeup(task);
                with_freed(only_if(self.is_asleep(task), task))
            }
        }
    }

    fn can_wup_refusal(&self, ctx: Ctx, task: TaskId) -> Option<Er>
        ensures { result ≡ first_refusal (can_wup_refusals self.now ctx task) }
    {
        let block = self.block(named(ctx, task));
        first_refusal! {
            is_wrong_task(ctx, task) => E_ID,
            block.is_none() => E_NOEXS,
            !is_active(block) => E_OBJ,
        }
    }

    /// Tells the wake-ups that are kept of a task as the code, and keeps none (`can_wup`).
    pub fn can_wup(&mut self, ctx: Ctx, task: TaskId) -> Did
        ensures tasks { self.new ≡ (can_wup self.old ctx task).tasks }
        ensures did { result ≡ (can_wup self.old ctx task).did }
    {
        match self.can_wup_refusal(ctx, task) {
            Some(code) => with_code(code),
            None => {
                let task = named(ctx, task);
                let kept = self.wakeups(task);
                self.clear_wakeups(task);
                with_code(Er(kept as i32))
            }
        }
    }

    fn rel_wai_refusal(&self, ctx: Ctx, task: TaskId) -> Option<Er>
        ensures { result ≡ first_refusal (rel_wai_refusals self.now ctx task) }
    {
        first_refusal! {
            is_wrong_task(ctx, task) => E_ID,
            self.block(named(ctx, task)).is_none() => E_NOEXS,
            !self.is_waiting(named(ctx, task)) => E_OBJ,
        }
    }

    /// The wait of a task is over, whatever it waits for (`rel_wai`): `freed` names it. A handler may call it.
    pub fn rel_wai(&mut self, ctx: Ctx, task: TaskId) -> Did
        ensures tasks { self.new ≡ (rel_wai self.old ctx task).tasks }
        ensures did { result ≡ (rel_wai self.old ctx task).did }
    {
        match self.rel_wai_refusal(ctx, task) {
            Some(code) => with_code(code),
            None => {
                let task = named(ctx, task);
                self.release(task);
                with_freed(Some(task))
            }
        }
    }

    /// The caller waits, and for nothing but the end of its delay (`dly_tsk`), which whoever keeps the time tells by `wake`.
    pub fn dly_tsk(&mut self, ctx: Ctx, ms: u32) -> Did
        ensures tasks { self.new ≡ (dly_tsk self.old ctx).tasks }
        ensures did { result ≡ (dly_tsk self.old ctx).did }
    {
        let _ = ms;
        self.wait_for(ctx.caller(), TaskWait::Other);
        with_wait()
    }
}
