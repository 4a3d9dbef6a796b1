ghost use Rattle.std.specs.Prelude.{List};
ghost use Rattle.it_types.specs.declared.event.Event.{Event};
ghost use Rattle.it_types.specs.declared.node_conf.Conf.{Conf};
ghost use Rattle.spec_world.specs.PlainWorld.{opened_world};
ghost use Rattle.laws_world.specs.BothNodes.{DueOnceAlong};

/// Over every list of events, of which those that aren't admitted change nothing, in either node a cyclic handler is due at most
/// once.
#[tactic(auto, using(crate::proofs::Both::once_from_opening))]
pub fn cyclic_handlers_are_due_once_in_both_nodes()
    ensures { (conf : Conf) (events : List Event) → DueOnceAlong (opened_world conf) events }
{}
