ghost use Rattle.std.specs.Prelude.{List};
ghost use Rattle.it_types.specs.declared.event.Event.{Event};
ghost use Rattle.it_types.specs.declared.entry.Entry.{Entry};
ghost use Rattle.it_types.specs.declared.node_conf.Conf.{Conf};
ghost use Rattle.spec_world.specs.PlainWorld.{PlainWorld, opened_world};
ghost use Rattle.laws_world.specs.AtRest.{HaveRightNames, IsAtRest, LogRests, RestsAlong};

/// No call that is ready waits in the kernel or the network part of either node, none whose deadline is at or before now, and
/// none that names an end point which isn't there; and at most one waits in each place. So it is after any event of any list of
/// events, from any world at rest on in which each end point has a declared routine or none and calls wait under the ids of end
/// points alone; and so after each entry of any log.
#[tactic(auto, using(crate::proofs::Rest::opening_rests, crate::proofs::Rest::always, crate::proofs::Rest::log_rests))]
pub fn no_call_waits_too_long()
    ensures opening { (conf : Conf) → IsAtRest (opened_world conf).nodes }
    ensures along { (w : PlainWorld) (events : List Event) → IsAtRest w.nodes → HaveRightNames w.nodes → RestsAlong w events }
    ensures log { (conf : Conf) (log : List Entry) → LogRests (opened_world conf) log }
{}
