ghost use Rattle.std.specs.Prelude.{◌≡◌, ◌≢◌, ℕ, true, false, not, List};
ghost use Rattle.it_types.specs.declared.id.TaskId.{TaskId};
ghost use Rattle.it_types.specs.declared.id.ObjId.{ObjId};
ghost use Rattle.it_types.specs.declared.conf.KConf.{KConf};
ghost use Rattle.it_types.specs.declared.context.Ctx.TheVariants.{Task};
ghost use Rattle.it_types.specs.declared.request.Req.{Req};
ghost use Rattle.spec_node.specs.declared.event.NodeEv.{NodeEv};
ghost use Rattle.spec_node.specs.declared.event.NodeEv.TheVariants.{Call, Return};
ghost use Rattle.spec_node.specs.PlainNode.{PlainNode, opened_node, running_task, holds_answer, has_due, has_begun};
ghost use Rattle.spec_node.specs.Admitted.{is_admitted};
ghost use Rattle.laws_node.specs.Taken.{Along};
ghost use Rattle.laws_node.specs.Due.{DueOnce};

/// Over every list of events of a node with handlers a cyclic handler is due at most once.
#[tactic(auto, using(crate::proofs::Dues::once_from_opening))]
pub fn cyclic_handlers_are_due_once()
    ensures { (conf : KConf) (addr : ℕ) (routines : List ObjId) (events : List NodeEv) → Along DueOnce (opened_node conf addr routines) events }
{}

/// Tasks call and return only while no handler is due and none has begun. Then the running task calls if it holds no answer, and
/// else returns.
#[tactic(auto, using(crate::proofs::Dues::call_after, crate::proofs::Dues::return_after, crate::proofs::Dues::may_call, crate::proofs::Dues::may_return))]
pub fn handlers_come_before_tasks()
    ensures only_then_call { (n : PlainNode) (task : TaskId) (request : Req) → is_admitted n (Call (Task task) request) ≡ true → (has_due n ≡ false) × (has_begun n ≡ false) }
    ensures only_then_return { (n : PlainNode) (task : TaskId) → is_admitted n (Return task) ≡ true → (has_due n ≡ false) × (has_begun n ≡ false) }
    ensures may_call { (n : PlainNode) (request : Req) → has_due n ≡ false → has_begun n ≡ false → (running_task n).0 ≢ 0 → is_admitted n (Call (Task (running_task n)) request) ≡ not (holds_answer n (running_task n)) }
    ensures may_return { (n : PlainNode) → has_due n ≡ false → has_begun n ≡ false → (running_task n).0 ≢ 0 → is_admitted n (Return (running_task n)) ≡ holds_answer n (running_task n) }
{}
