//! Calls on priorities and on the order of tasks (µITRON4.0 sections 4.1 and 4.5).

ghost use Rattle.std.specs.Prelude.{◌≡◌};
ghost use Rattle.spec_lists.specs.Refusal.{first_refusal};
ghost use Rattle.spec_kernel.specs.TaskRows.{chg_pri, chg_pri_refusals, get_pri, get_pri_refusals, get_tid, rot_rdq, rot_rdq_refusals};

use crate::Tasks;
use crate::blocks::is_active;
use crate::dids::{with_code, with_value};
use crate::named::{is_wrong_task, named};
use it_types::{Ctx, E_ID, E_NOEXS, E_OBJ, E_OK, E_PAR, Er, TaskId, first_refusal};
use spec_kernel::Did;

/// The greatest number of a priority, which is the least urgent.
const GREATEST_PRIORITY: u32 = 16;

fn rot_rdq_refusal(ctx: Ctx, pri: u32) -> Option<Er>
    ensures { result ≡ first_refusal (rot_rdq_refusals ctx pri) }
{
    first_refusal!(pri > GREATEST_PRIORITY || (pri == 0 && ctx.is_handler()) => E_PAR)
}

impl Tasks {
    fn chg_pri_refusal(&self, ctx: Ctx, task: TaskId, pri: u32) -> Option<Er>
        ensures { result ≡ first_refusal (chg_pri_refusals self.now ctx task pri) }
    {
        let block = self.block(named(ctx, task));
        first_refusal! {
            is_wrong_task(ctx, task) => E_ID,
            block.is_none() => E_NOEXS,
            pri > GREATEST_PRIORITY => E_PAR,
            !is_active(block) => E_OBJ,
        }
    }

    /// Gives a task a priority, 0 being its initial one; a runnable task is the last of that priority, also where it stays the
    /// same (`chg_pri`).
    pub fn chg_pri(&mut self, ctx: Ctx, task: TaskId, pri: u32) -> Did
        ensures tasks { self.new ≡ (chg_pri self.old ctx task pri).tasks }
        ensures did { result ≡ (chg_pri self.old ctx task pri).did }
    {
        match self.chg_pri_refusal(ctx, task, pri) {
            Some(code) => with_code(code),
            None => {
                let task = named(ctx, task);
                self.set_priority(task, pri);
                self.rank_anew(task);
                with_code(E_OK)
            }
        }
    }

    fn get_pri_refusal(&self, ctx: Ctx, task: TaskId) -> Option<Er>
        ensures { result ≡ first_refusal (get_pri_refusals self.now ctx task) }
    {
        let block = self.block(named(ctx, task));
        first_refusal! {
            is_wrong_task(ctx, task) => E_ID,
            block.is_none() => E_NOEXS,
            !is_active(block) => E_OBJ,
        }
    }

    /// Tells the priority of a task (`get_pri`).
    pub fn get_pri(&mut self, ctx: Ctx, task: TaskId) -> Did
        ensures tasks { self.new ≡ (get_pri self.old ctx task).tasks }
        ensures did { result ≡ (get_pri self.old ctx task).did }
    {
        match self.get_pri_refusal(ctx, task) {
            Some(code) => with_code(code),
            None => with_value(self.pri(named(ctx, task))),
        }
    }

    /// Of the runnable tasks of a priority the first in order is the last from now on; 0 is the caller's priority (`rot_rdq`).
    /// A handler may call it, with a priority.
    pub fn rot_rdq(&mut self, ctx: Ctx, pri: u32) -> Did
        ensures tasks { self.new ≡ (rot_rdq self.old ctx pri).tasks }
        ensures did { result ≡ (rot_rdq self.old ctx pri).did }
    {
        match rot_rdq_refusal(ctx, pri) {
            Some(code) => with_code(code),
            None => {
                let pri = if pri == 0 {
                    self.pri(ctx.caller())
                } else {
                    pri
                };
                self.rotate(pri);
                with_code(E_OK)
            }
        }
    }

    /// Tells the running task, 0 for none (`get_tid`). A handler may call it.
    pub fn get_tid(&mut self, ctx: Ctx) -> Did
        ensures tasks { self.new ≡ (get_tid self.old).tasks }
        ensures did { result ≡ (get_tid self.old).did }
    {
        let _ = ctx;
        with_value(self.running().0)
    }
}
