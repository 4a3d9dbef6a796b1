ghost use Rattle.std.specs.Prelude.{List};
ghost use Rattle.it_types.specs.declared.event.Event.{Event};
ghost use Rattle.it_types.specs.declared.node_conf.Conf.{Conf};
ghost use Rattle.spec_world.specs.PlainWorld.{opened_world};
ghost use Rattle.laws_world.specs.Taken.{CanOpen};
ghost use Rattle.laws_world.specs.BothNodes.{AgreeAlong};

/// Over every list of events, of which those that aren't admitted change nothing, in either node: each task that waits outside
/// the kernel made the waiting call of the network part that has its number and of whose end it is told, and the other way
/// round; the calls of the network part stand in the order of their numbers, each at most the last one drawn, no two at one
/// part of an end point; no call waits in the kernel under the number of a call of which a routine is told, and no two there
/// under one number; and a task that holds an answer has no call that waits.
#[tactic(auto, using(crate::proofs::Both::agree_from_opening))]
pub fn parts_agree_in_both_nodes()
    ensures { (conf : Conf) (events : List Event) → CanOpen conf → AgreeAlong (opened_world conf) events }
{}
