ghost use Rattle.std.specs.Prelude.{ℕ, List};
ghost use Rattle.it_types.specs.declared.id.ObjId.{ObjId};
ghost use Rattle.it_types.specs.declared.conf.KConf.{KConf};
ghost use Rattle.spec_node.specs.declared.event.NodeEv.{NodeEv};
ghost use Rattle.spec_node.specs.PlainNode.{opened_node};
ghost use Rattle.laws_node.specs.Taken.{Along};
ghost use Rattle.laws_node.specs.EndPoints.{HasKeptPoints};

/// Over every list of events of a node with handlers no two UDP end points have the same port, no queue has more than 8
/// datagrams, only receives wait, at end points that are there, at most one at each, and a routine that is told of one is that of
/// its end point, which is declared.
#[tactic(auto, using(crate::proofs::Rest::kept_from_opening))]
pub fn end_points_are_kept()
    ensures { (conf : KConf) (addr : ℕ) (routines : List ObjId) (events : List NodeEv) → Along HasKeptPoints (opened_node conf addr routines) events }
{}
