ghost use Rattle.std.specs.Prelude.{ℕ, List};
ghost use Rattle.it_types.specs.declared.id.ObjId.{ObjId};
ghost use Rattle.it_types.specs.declared.conf.KConf.{KConf};
ghost use Rattle.spec_kernel.specs.Opening.{IsDeclarable};
ghost use Rattle.spec_node.specs.declared.event.NodeEv.{NodeEv};
ghost use Rattle.spec_node.specs.PlainNode.{opened_node};
ghost use Rattle.laws_node.specs.Taken.{Along};
ghost use Rattle.laws_node.specs.Running.{Stands, RunsFree};

/// Over every list of events of a node with handlers, of which those that aren't admitted change nothing: the list of runnable
/// tasks has each task that is active, isn't suspended and has no call that waits, once, and no other (µITRON4.0 section 3.2);
/// a task whose call waits is active, and has one such call; and the ranks of the calls that wait rise along their list.
#[tactic(auto, using(crate::proofs::RunsFree::standing_from_opening))]
pub fn runnable_tasks_are_exact()
    ensures { (conf : KConf) (addr : ℕ) (routines : List ObjId) (events : List NodeEv) → IsDeclarable conf → Along Stands (opened_node conf addr routines) events }
{}

/// Over every list of events of a node with handlers the task that runs waits for no call, of the kernel or of the network part.
/// A call of which a routine is told may wait that it made before.
#[tactic(auto, using(crate::proofs::RunsFree::free_from_opening))]
pub fn running_tasks_wait_for_nothing()
    ensures { (conf : KConf) (addr : ℕ) (routines : List ObjId) (events : List NodeEv) → IsDeclarable conf → Along RunsFree (opened_node conf addr routines) events }
{}
