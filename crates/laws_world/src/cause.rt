ghost use Rattle.std.specs.Prelude.{List};
ghost use Rattle.it_types.specs.declared.entry.Entry.{Entry};
ghost use Rattle.it_types.specs.declared.node_conf.Conf.{Conf};
ghost use Rattle.spec_world.specs.History.{IsRun};
ghost use Rattle.laws_world.specs.Taken.{CanOpen};
ghost use Rattle.laws_world.specs.CauseInBoth.{LogCaused};

/// Over the entries of a run each end of a call has a cause at the node at which its entry's event happens, as that node is before
/// it, with the code and the bytes of that cause, and causes of one kind alone: what the call waits for is there; its deadline is at
/// or before the new now; it is released or cancelled; or the end point is deleted at which it waits.
#[tactic(auto, using(crate::proofs::CauseInBoth::log_caused))]
pub fn each_end_of_both_nodes_has_one_cause()
    ensures { (conf : Conf) (log : List Entry) → CanOpen conf → IsRun conf log → LogCaused conf log }
{}
