ghost use Rattle.std.specs.Prelude.{List};
ghost use Rattle.it_types.specs.declared.event.Event.{Event};
ghost use Rattle.it_types.specs.declared.node_conf.Conf.{Conf};
ghost use Rattle.spec_world.specs.PlainWorld.{opened_world};
ghost use Rattle.laws_world.specs.BothNodes.{KeptAlong};

/// Over every list of events, of which those that aren't admitted change nothing, in either node: no two UDP end points have the
/// same port, no queue has more than 8 datagrams, only receives wait, at end points that are there, at most one at each, and a
/// routine that is told of one is that of its end point, which is declared.
#[tactic(auto, using(crate::proofs::Both::kept_from_opening))]
pub fn end_points_are_kept_in_both_nodes()
    ensures { (conf : Conf) (events : List Event) → KeptAlong (opened_world conf) events }
{}
