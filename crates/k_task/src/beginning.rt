//! Calls that begin and end tasks (µITRON4.0 section 4.1).

ghost use Rattle.std.specs.Prelude.{◌≡◌, false, is_none};
ghost use Rattle.spec_lists.specs.Refusal.{first_refusal};
ghost use Rattle.spec_kernel.specs.PlainTasks.{block_of};
ghost use Rattle.spec_kernel.specs.TaskRows.{act_tsk, act_tsk_refusals, activated, can_act, can_act_refusals, ending, ext_tsk, ter_tsk, ter_tsk_refusals};

use crate::Tasks;
use crate::blocks::{GREATEST_COUNT, activations_of, is_active};
use crate::dids::{only_if, with_begun, with_code};
use crate::named::{is_wrong_task, named};
use it_types::{Ctx, E_ID, E_ILUSE, E_NOEXS, E_OBJ, E_OK, E_QOVR, Er, TaskId, first_refusal};
use spec_kernel::Did;

impl Tasks {
    fn act_tsk_refusal(&self, ctx: Ctx, task: TaskId) -> Option<Er>
        ensures { result ≡ first_refusal (act_tsk_refusals self.now ctx task) }
    {
        let block = self.block(named(ctx, task));
        first_refusal! {
            is_wrong_task(ctx, task) => E_ID,
            block.is_none() => E_NOEXS,
            is_active(block) && activations_of(block) >= GREATEST_COUNT => E_QOVR,
        }
    }

    /// A dormant task begins; of an active one the activation is kept (`act_tsk`). A handler may call it.
    pub fn act_tsk(&mut self, ctx: Ctx, task: TaskId) -> Did
        ensures tasks { self.new ≡ (act_tsk self.old ctx task).tasks }
        ensures did { result ≡ (act_tsk self.old ctx task).did }
    {
        match self.act_tsk_refusal(ctx, task) {
            Some(code) => with_code(code),
            None => self.activate(named(ctx, task)),
        }
    }

    fn activate(&mut self, task: TaskId) -> Did
        requires { is_none (block_of self.old task) ≡ false }
        ensures tasks { self.new ≡ (activated self.old task).tasks }
        ensures did { result ≡ (activated self.old task).did }
    {
        if is_active(self.block(task)) {
            self.add_activation(task);
            with_code(E_OK)
        } else {
            self.begin(task);
            with_begun(task)
        }
    }

    fn can_act_refusal(&self, ctx: Ctx, task: TaskId) -> Option<Er>
        ensures { result ≡ first_refusal (can_act_refusals self.now ctx task) }
    {
        first_refusal! {
            is_wrong_task(ctx, task) => E_ID,
            self.block(named(ctx, task)).is_none() => E_NOEXS,
        }
    }

    /// Tells the activations that are kept of a task as the code, and keeps none (`can_act`).
    pub fn can_act(&mut self, ctx: Ctx, task: TaskId) -> Did
        ensures tasks { self.new ≡ (can_act self.old ctx task).tasks }
        ensures did { result ≡ (can_act self.old ctx task).did }
    {
        match self.can_act_refusal(ctx, task) {
            Some(code) => with_code(code),
            None => {
                let task = named(ctx, task);
                let kept = self.activations(task);
                self.clear_activations(task);
                with_code(Er(kept as i32))
            }
        }
    }

    /// The caller ends; with an activation kept it begins anew (`ext_tsk`). Nothing is answered then.
    pub fn ext_tsk(&mut self, ctx: Ctx) -> Did
        ensures tasks { self.new ≡ (ext_tsk self.old ctx).tasks }
        ensures did { result ≡ (ext_tsk self.old ctx).did }
    {
        self.end(ctx.caller())
    }

    fn ter_tsk_refusal(&self, ctx: Ctx, task: TaskId) -> Option<Er>
        ensures { result ≡ first_refusal (ter_tsk_refusals self.now ctx task) }
    {
        let block = self.block(named(ctx, task));
        first_refusal! {
            is_wrong_task(ctx, task) => E_ID,
            block.is_none() => E_NOEXS,
            named(ctx, task).0 == ctx.caller().0 => E_ILUSE,
            !is_active(block) => E_OBJ,
        }
    }

    /// Another task ends, and with it the call with which it waits; with an activation kept it begins anew (`ter_tsk`).
    pub fn ter_tsk(&mut self, ctx: Ctx, task: TaskId) -> Did
        ensures tasks { self.new ≡ (ter_tsk self.old ctx task).tasks }
        ensures did { result ≡ (ter_tsk self.old ctx task).did }
    {
        match self.ter_tsk_refusal(ctx, task) {
            Some(code) => with_code(code),
            None => self.end(named(ctx, task)),
        }
    }

    fn end(&mut self, task: TaskId) -> Did
        ensures tasks { self.new ≡ (ending self.old task).tasks }
        ensures did { result ≡ (ending self.old task).did }
    {
        let waited = self.is_waiting(task);
        let begins = self.activations(task) > 0;
        self.lay_down(task);
        if begins {
            self.take_activation(task);
            self.begin(task);
        }
        Did {
            freed: only_if(waited, task),
            gone: Some(task),
            begun: only_if(begins, task),
            ..with_code(E_OK)
        }
    }
}
