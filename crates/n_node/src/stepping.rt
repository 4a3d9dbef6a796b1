ghost use Rattle.std.specs.Prelude.{◌≡◌, ◌<◌, ◌-◌, ◌^◌, true, IfOk};
ghost use Rattle.laws_node.proofs.Agreeing.{Good};
ghost use Rattle.spec_node.specs.declared.event.NodeEv.TheVariants.{Return as Returned};
ghost use Rattle.spec_node.specs.Admitted.{is_admitted};
ghost use Rattle.spec_node.specs.NodeStep.{node_step};
ghost use Rattle.n_node.specs.Plain.{plain};

use crate::Parts;
use crate::held::{held_answer, take_answer};
use it_types::{List, NoMemory, Out, TaskId};
use spec_node::NodeEv;
use std::alloc::Global;

impl Parts {
    /// The task takes the answer that it holds.
    fn return_from(&mut self, alloc: Global, task: TaskId) -> Out
        ensures { node_step (plain self.old) (Returned task) ≡ (plain self.new, result) }
    {
        let held = take_answer(&mut self.held, task);
        Out {
            ans: held_answer(held),
            ends: List::new(alloc),
            marks: List::new(alloc),
            packs: List::new(alloc),
        }
    }

    /// The event, which is admitted, happens. Without memory the parts may be half changed.
    pub(crate) fn step(&mut self, alloc: Global, ev: NodeEv) -> Result<Out, NoMemory>
        requires good { Good (plain self.old) }
        requires admitted { is_admitted (plain self.old) ev ≡ true }
        requires calls { self.old.calls < 2 ^ 31 - 1 }
        requires now { self.old.kernel.clock.now < 2 ^ 59 }
        requires ranks { self.old.kernel.next_rank < 2 ^ 59 }
        ensures { IfOk result (λ o. node_step (plain self.old) ev ≡ (plain self.new, o)) }
    {
        match ev {
            NodeEv::Call(ctx, request) => self.call(alloc, ctx, &request),
            NodeEv::Return(task) => Ok(self.return_from(alloc, task)),
            NodeEv::Begin => self.begin(alloc),
            NodeEv::Finish => Ok(self.end_handler(alloc)),
            NodeEv::Tick => self.tick(alloc),
            NodeEv::Arrive(bytes) => self.arrive(alloc, bytes.as_slice()),
        }
    }
}
