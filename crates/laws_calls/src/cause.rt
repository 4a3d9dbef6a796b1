ghost use Rattle.std.specs.Prelude.{ℕ, List};
ghost use Rattle.it_types.specs.declared.id.ObjId.{ObjId};
ghost use Rattle.it_types.specs.declared.conf.KConf.{KConf};
ghost use Rattle.spec_kernel.specs.Opening.{IsDeclarable};
ghost use Rattle.spec_node.specs.declared.event.NodeEv.{NodeEv};
ghost use Rattle.spec_node.specs.PlainNode.{opened_node};
ghost use Rattle.laws_calls.specs.Cause.{CausesAreOne, EachTaken, EndsAreCaused};

/// Over every list of events of a node, of which those that aren't admitted change nothing: each end of a call that an event tells
/// has a cause, with the code and the bytes of that cause. What the call waits for is there; its deadline is at or before the new
/// now; it is released or cancelled; or the end point is deleted at which it waits. No end has causes of two of these kinds.
#[tactic(auto, using(crate::proofs::CauseAlong::caused_along, crate::proofs::CauseAlong::one_along))]
pub fn each_end_has_one_cause()
    ensures some { (conf : KConf) (addr : ℕ) (routines : List ObjId) (events : List NodeEv) → IsDeclarable conf → EachTaken EndsAreCaused (opened_node conf addr routines) events }
    ensures one { (conf : KConf) (addr : ℕ) (routines : List ObjId) (events : List NodeEv) → IsDeclarable conf → EachTaken CausesAreOne (opened_node conf addr routines) events }
{}
