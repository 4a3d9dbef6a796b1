ghost use Rattle.std.specs.Prelude.{◌≡◌, ◌≤◌, IfOk, None, true};
ghost use Rattle.spec_lists.specs.Tables.{empty_table, get};
ghost use Rattle.spec_kernel.specs.Ids.{greatest_id};
ghost use Rattle.spec_kernel.specs.Ids.{are_new_ids, task_id};
ghost use Rattle.spec_kernel.specs.TaskOpening.{block_at_start, declared, no_tasks, opened_tasks};

use crate::Tasks;
use arrayvec::ArrayVec;
use it_types::{NoMemory, Table, TaskConf, TaskDecl, TaskId};
use spec_kernel::TaskBlock;
use std::alloc::Global;

impl Tasks {
    /// The tasks with these declarations, whose ids are from 1 to 16 and distinct; those that are active from the start are
    /// runnable in the order of their declarations (µITRON4.0 section 4.1).
    pub fn open(alloc: Global, conf: &TaskConf) -> Result<Tasks, NoMemory>
        requires { are_new_ids task_id block_at_start (empty_table greatest_id) conf.now.tasks ≡ true }
        ensures { IfOk result (λ t. t ≡ opened_tasks conf.now.tasks) }
    {
        let mut tasks = Tasks::none(alloc)?;
        for decl in conf.tasks.as_slice() {
            tasks.declare(*decl);
        }
        Ok(tasks)
    }

    /// No tasks.
    fn none(alloc: Global) -> Result<Tasks, NoMemory>
        ensures { IfOk result (λ t. t ≡ no_tasks) }
    {
        let tasks = Table::new(alloc)?;
        let waits = Table::new(alloc)?;
        Ok(Tasks {
            tasks,
            waits,
            runnable: ArrayVec::new(),
            next_rank: 0,
        })
    }

    /// One task more.
    fn declare(&mut self, decl: TaskDecl)
        requires low { 1 ≤ decl.id }
        requires high { decl.id ≤ 16 }
        requires new { get self.old.tasks decl.id ≡ None }
        ensures { self.new ≡ declared self.old decl }
    {
        let _ = self.tasks.put(
            decl.id,
            TaskBlock {
                active: decl.act,
                initial_priority: decl.pri,
                priority: decl.pri,
                activations: 0,
                wakeups: 0,
                suspensions: 0,
            },
        );
        if decl.act {
            self.runnable.push(TaskId(decl.id));
        }
    }
}
