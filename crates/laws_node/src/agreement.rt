ghost use Rattle.std.specs.Prelude.{ℕ, List};
ghost use Rattle.it_types.specs.declared.id.ObjId.{ObjId};
ghost use Rattle.it_types.specs.declared.conf.KConf.{KConf};
ghost use Rattle.spec_kernel.specs.Opening.{IsDeclarable};
ghost use Rattle.spec_node.specs.declared.event.NodeEv.{NodeEv};
ghost use Rattle.spec_node.specs.PlainNode.{opened_node};
ghost use Rattle.laws_node.specs.Taken.{Along};
ghost use Rattle.laws_node.specs.Agreement.{PartsAgree};

/// Over every list of events of a node with handlers, of which those that aren't admitted change nothing: each task that waits
/// outside the kernel made the waiting call of the network part that has its number and of whose end it is told, and the other
/// way round; the calls of the network part stand in the order of their numbers, each at most the last one drawn, no two at one
/// part of an end point; no call waits in the kernel under the number of a call of which a routine is told, and no two there under
/// one number; and a task that holds an answer has no call that waits.
#[tactic(auto, using(crate::proofs::Agreeing::agree_from_opening))]
pub fn parts_of_a_node_agree()
    ensures { (conf : KConf) (addr : ℕ) (routines : List ObjId) (events : List NodeEv) → IsDeclarable conf → Along PartsAgree (opened_node conf addr routines) events }
{}
