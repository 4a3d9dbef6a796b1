ghost use Rattle.std.specs.Prelude.{List};
ghost use Rattle.it_types.specs.declared.event.Event.{Event};
ghost use Rattle.it_types.specs.declared.node_conf.Conf.{Conf};
ghost use Rattle.spec_world.specs.PlainWorld.{opened_world};
ghost use Rattle.laws_world.specs.Taken.{CanOpen};
ghost use Rattle.laws_world.specs.BothNodes.{RunFreeAlong, StandAlong};

/// Over every list of events, of which those that aren't admitted change nothing: the list of runnable tasks of either node
/// has each task that is active, isn't suspended and has no call that waits, once, and no other (µITRON4.0 section 3.2); a
/// task whose call waits is active, and has one such call; and the ranks of the calls that wait rise along their list.
#[tactic(auto, using(crate::proofs::Both::standing_from_opening))]
pub fn runnable_tasks_are_exact()
    ensures { (conf : Conf) (events : List Event) → CanOpen conf → StandAlong (opened_world conf) events }
{}

/// Over every list of events, of which those that aren't admitted change nothing, in either node the task that runs waits for no
/// call, of the kernel or of the network part. A call of which a routine is told may wait that it made before.
#[tactic(auto, using(crate::proofs::Both::free_from_opening))]
pub fn running_tasks_wait_for_nothing_in_both_nodes()
    ensures { (conf : Conf) (events : List Event) → CanOpen conf → RunFreeAlong (opened_world conf) events }
{}
