ghost use Rattle.std.specs.Prelude.{ℕ, List};
ghost use Rattle.it_types.specs.declared.id.ObjId.{ObjId};
ghost use Rattle.it_types.specs.declared.conf.KConf.{KConf};
ghost use Rattle.spec_node.specs.declared.event.NodeEv.{NodeEv};
ghost use Rattle.spec_node.specs.PlainNode.{opened_node};
ghost use Rattle.laws_node.specs.Taken.{Along};
ghost use Rattle.laws_node.specs.AtRest.{NodeRests};

/// Over every list of events of a node with handlers no call that is ready waits in its kernel or at an end point, none whose
/// deadline is at or before now, and none that names an end point which isn't there; and at most one waits in each place.
#[tactic(auto, using(crate::proofs::Rest::rests_from_opening))]
pub fn no_call_of_a_node_waits_too_long()
    ensures { (conf : KConf) (addr : ℕ) (routines : List ObjId) (events : List NodeEv) → Along NodeRests (opened_node conf addr routines) events }
{}
