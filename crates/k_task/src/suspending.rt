//! Calls that suspend and resume tasks (µITRON4.0 section 4.2).

ghost use Rattle.std.specs.Prelude.{◌≡◌};
ghost use Rattle.spec_lists.specs.Refusal.{first_refusal};
ghost use Rattle.spec_kernel.specs.TaskRows.{frsm_tsk, rsm_tsk, rsm_tsk_refusals, sus_tsk, sus_tsk_refusals};

use crate::Tasks;
use crate::blocks::{GREATEST_COUNT, is_active, is_suspended, suspensions_of};
use crate::dids::with_code;
use crate::named::{is_wrong_task, named};
use it_types::{Ctx, E_ID, E_NOEXS, E_OBJ, E_OK, E_QOVR, Er, TaskId, first_refusal};
use spec_kernel::Did;

impl Tasks {
    fn sus_tsk_refusal(&self, ctx: Ctx, task: TaskId) -> Option<Er>
        ensures { result ≡ first_refusal (sus_tsk_refusals self.now ctx task) }
    {
        let block = self.block(named(ctx, task));
        first_refusal! {
            is_wrong_task(ctx, task) => E_ID,
            block.is_none() => E_NOEXS,
            !is_active(block) => E_OBJ,
            suspensions_of(block) >= GREATEST_COUNT => E_QOVR,
        }
    }

    /// Suspends a task, also one that waits, and also the caller (`sus_tsk`).
    pub fn sus_tsk(&mut self, ctx: Ctx, task: TaskId) -> Did
        ensures tasks { self.new ≡ (sus_tsk self.old ctx task).tasks }
        ensures did { result ≡ (sus_tsk self.old ctx task).did }
    {
        match self.sus_tsk_refusal(ctx, task) {
            Some(code) => with_code(code),
            None => {
                self.suspend(named(ctx, task));
                with_code(E_OK)
            }
        }
    }

    fn rsm_tsk_refusal(&self, ctx: Ctx, task: TaskId) -> Option<Er>
        ensures { result ≡ first_refusal (rsm_tsk_refusals self.now ctx task) }
    {
        let block = self.block(named(ctx, task));
        first_refusal! {
            is_wrong_task(ctx, task) => E_ID,
            block.is_none() => E_NOEXS,
            !(is_active(block) && is_suspended(block)) => E_OBJ,
        }
    }

    /// Takes one suspension of a task back (`rsm_tsk`): with none left it is runnable, the last in order, unless it waits.
    pub fn rsm_tsk(&mut self, ctx: Ctx, task: TaskId) -> Did
        ensures tasks { self.new ≡ (rsm_tsk self.old ctx task).tasks }
        ensures did { result ≡ (rsm_tsk self.old ctx task).did }
    {
        match self.rsm_tsk_refusal(ctx, task) {
            Some(code) => with_code(code),
            None => {
                let task = named(ctx, task);
                let left = self.suspensions(task).saturating_sub(1);
                self.resume(task, left);
                with_code(E_OK)
            }
        }
    }

    /// Takes all suspensions of a task back (`frsm_tsk`): it is runnable, the last in order, unless it waits.
    pub fn frsm_tsk(&mut self, ctx: Ctx, task: TaskId) -> Did
        ensures tasks { self.new ≡ (frsm_tsk self.old ctx task).tasks }
        ensures did { result ≡ (frsm_tsk self.old ctx task).did }
    {
        match self.rsm_tsk_refusal(ctx, task) {
            Some(code) => with_code(code),
            None => {
                self.resume(named(ctx, task), 0);
                with_code(E_OK)
            }
        }
    }
}
