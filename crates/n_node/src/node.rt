ghost use Rattle.std.specs.Prelude.{◌≡◌, ◌↔◌, ◌<◌, ◌-◌, ◌^◌, IsTrue, true, false, None, Some, Ok, Err, IfOk, option_map};
ghost use mathlib.Core.Logic.{◌⊎◌};
ghost use Rattle.std.specs.List.{list_any};
ghost use Rattle.it_types.specs.Configuration.{kernel_conf};
ghost use Rattle.it_types.specs.declared.entry.Out.{Out as AnOut};
ghost use Rattle.spec_kernel.specs.TaskBlocks.{is_active};
ghost use Rattle.spec_kernel.specs.Opening.{IsDeclarable};
ghost use Rattle.spec_node.specs.declared.refusal.StepErr.{StepErr as AStepErr};
ghost use Rattle.spec_node.specs.PlainNode.{opened_node, running_task, holds_answer, has_due, has_begun};
ghost use Rattle.spec_node.specs.Admitted.{is_admitted, is_free};
ghost use Rattle.spec_node.specs.NodeStep.{node_step};
ghost use Rattle.spec_node.specs.Stepping.{living, refusal};

use crate::Parts;
use it_types::{Ctx, Handler, NoMemory, NodeConf, Out, TaskId};
use k_core::is_declarable;
use spec_node::{NodeEv, StepErr};
use std::alloc::Global;
use std::marker::Model;

/// One node (µITRON4.0 with the ITRON TCP/IP API). A step that runs out of memory may leave its parts half changed: it ends the
/// node.
#[derive(Debug, Drop)]
pub struct Node {
    pub(crate) parts: Parts,
    ended: bool,
}

impl Model for Node {
    ghost use Rattle.std.specs.Prelude.{◌≡◌, false};
    ghost use Rattle.laws_node.proofs.Agreeing.{Good};
    ghost use Rattle.spec_node.specs.Stepping.{NodeState};
    ghost use Rattle.n_node.specs.Plain.{plain};

    ghost Value = { NodeState };

    ghost view = { λ n. record { plain = plain n.parts; ended = n.ended } };

    ghost invariant = { λ n. n.ended ≡ false → Good (plain n.parts) };
}

impl Node {
    /// Whether a node can be opened with this configuration: whether its kernel can be opened with what it declares.
    pub fn can_open(conf: &NodeConf) -> bool
        ensures { IsTrue result ↔ IsDeclarable (kernel_conf conf.now) }
    {
        is_declarable(
            conf.tasks.as_slice(),
            conf.sems.as_slice(),
            conf.flags.as_slice(),
            conf.dtqs.as_slice(),
            conf.cycs.as_slice(),
        )
    }

    /// The node with this configuration, before its first event. `can_open` tells whether there is one.
    pub fn open(alloc: Global, conf: &NodeConf) -> Result<Node, NoMemory>
        requires { IsDeclarable (kernel_conf conf.now) }
        ensures { IfOk result (λ n. n ≡ living (opened_node (kernel_conf conf.now) conf.now.addr conf.now.cbrs)) }
    {
        Ok(Node {
            parts: Parts::open(alloc, conf)?,
            ended: false,
        })
    }

    /// The running task, 0 for none (µITRON4.0 section 3.2).
    pub fn running(&self) -> TaskId
        ensures { result ≡ running_task self.now.plain }
    {
        self.parts.kernel.running()
    }

    /// The ticks so far.
    pub fn now(&self) -> u64
        ensures { result ≡ self.now.plain.kernel.clock.now }
    {
        self.parts.kernel.now()
    }

    /// Whether a task is active.
    pub fn is_any_active(&self) -> bool
        ensures { result ≡ list_any is_active self.now.plain.kernel.tasks }
    {
        self.parts.kernel.is_any_active()
    }

    /// Whether the task holds the answer of a call that has ended.
    pub fn holds_answer(&self, task: TaskId) -> bool
        ensures { result ≡ holds_answer self.now.plain task }
    {
        matches!(self.parts.held.get(task.0 as usize), Some(Some(_)))
    }

    /// Whether a handler is due: then it comes before all tasks.
    pub fn has_due(&self) -> bool
        ensures { result ≡ has_due self.now.plain }
    {
        self.parts.pend.has_due()
    }

    /// The handler that has begun, if one has.
    pub fn handler(&self) -> Option<&Handler>
        ensures { option_map (λ h. h.now) result ≡ self.now.plain.begun }
    {
        self.parts.begun.as_ref()
    }

    /// Whether an earlier step ran out of memory, which ended the node.
    pub fn ended(&self) -> bool
        ensures { result ≡ self.now.ended }
    {
        self.ended
    }

    /// Whether the task runs, and no handler is due or has begun.
    fn is_free(&self, task: TaskId) -> bool
        ensures { result ≡ is_free self.now.plain task }
    {
        let has_handler = self.has_due() || self.parts.begun.is_some();
        !has_handler && task.0 != 0 && self.running().0 == task.0
    }

    /// Whether the event is admitted here. Handlers come before tasks: while one is due or has begun no task calls or returns. The
    /// running task calls if it holds no answer, and else returns; a handler calls while it has begun. A tick and an arrival are
    /// admitted always.
    pub fn admits(&self, ev: &NodeEv) -> bool
        ensures { result ≡ is_admitted self.now.plain ev.now }
    {
        let has_begun = self.parts.begun.is_some();
        match ev {
            NodeEv::Call(Ctx::Task(task), _) => self.is_free(*task) && !self.holds_answer(*task),
            NodeEv::Call(Ctx::Handler, _) | NodeEv::Finish => has_begun,
            NodeEv::Return(task) => self.is_free(*task) && self.holds_answer(*task),
            NodeEv::Begin => self.has_due() && !has_begun,
            NodeEv::Tick | NodeEv::Arrive(_) => true,
        }
    }

    /// Why the event is refused, if it is: by the first test that holds.
    fn refusal(&self, ev: &NodeEv) -> Option<StepErr>
        ensures { result ≡ refusal self.now ev.now }
    {
        if self.ended {
            return Some(StepErr::Ended);
        }
        if !self.admits(ev) {
            return Some(StepErr::NotAdmitted);
        }
        None
    }

    /// The event happens: gives its answer, the ends of calls, the marks and the packets. What refuses it, in this order, changes
    /// nothing: `Ended`, an earlier step ran out of memory; `NotAdmitted`, the node does not admit it. With `NoMemory` memory ran out in
    /// this step, which ends the node.
    pub fn step(&mut self, alloc: Global, ev: NodeEv) -> Result<Out, StepErr>
        requires calls { self.old.plain.calls < 2 ^ 31 - 1 }
        requires now { self.old.plain.kernel.clock.now < 2 ^ 59 }
        requires ranks { self.old.plain.kernel.next_rank < 2 ^ 59 }

        // The first test that refuses the event gives the answer, and nothing changes.
        ensures refused { (e : AStepErr) → refusal self.old ev ≡ Some e → (result ≡ Err e) × (self.new ≡ self.old) }

        // Else the node is the next one of the specification, with what the event gives, or memory ran out, which ends the node.
        ensures ok { IfOk result (λ o. (refusal self.old ev ≡ None) × (self.new.ended ≡ false) × (node_step self.old.plain ev ≡ (self.new.plain, o))) }
        ensures no_memory { result ≡ Err AStepErr.NoMemory → (refusal self.old ev ≡ None) × (self.new.ended ≡ true) }
        ensures only { refusal self.old ev ≡ None → ((o : AnOut) × (result ≡ Ok o)) ⊎ (result ≡ Err AStepErr.NoMemory) }
    {
        if let Some(refusal) = self.refusal(&ev) {
            return Err(refusal);
        }
        self.ended = true;
        match self.parts.step(alloc, ev) {
            Ok(out) => {
                self.ended = false;
                Ok(out)
            }
            Err(NoMemory) => Err(StepErr::NoMemory),
        }
    }
}
