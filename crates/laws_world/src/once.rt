ghost use Rattle.std.specs.Prelude.{List};
ghost use Rattle.it_types.specs.declared.entry.Entry.{Entry};
ghost use Rattle.it_types.specs.declared.node_conf.Conf.{Conf};
ghost use Rattle.spec_world.specs.History.{IsRun};
ghost use Rattle.laws_world.specs.Taken.{CanOpen};
ghost use Rattle.laws_world.specs.OnceInBoth.{LogOnce};

/// Over the entries of a run, at either node: each number accepts one call at most; a call ends at most once, in the entry that
/// accepted it or a later one; and each return gives the code and the bytes of the end of the call for which its task waited last,
/// from which no other returns. A task that has ended doesn't return from a call of an earlier life.
#[tactic(auto, using(crate::proofs::OnceInBoth::log_once))]
pub fn each_call_of_both_nodes_ends_once()
    ensures { (conf : Conf) (log : List Entry) → CanOpen conf → IsRun conf log → LogOnce log }
{}
