ghost use Rattle.std.specs.Prelude.{ℕ, List};
ghost use Rattle.it_types.specs.declared.id.ObjId.{ObjId};
ghost use Rattle.it_types.specs.declared.conf.KConf.{KConf};
ghost use Rattle.spec_kernel.specs.Opening.{IsDeclarable};
ghost use Rattle.spec_node.specs.declared.event.NodeEv.{NodeEv};
ghost use Rattle.spec_node.specs.PlainNode.{opened_node};
ghost use Rattle.laws_calls.specs.Once.{Once, log_of};

/// Over every list of events of a node, of which those that aren't admitted change nothing: each number accepts one call at most;
/// a call ends at most once, in the entry that accepted it or a later one; and each return gives the code and the bytes of the
/// end of the call for which its task waited last, from which no other returns. A task that has ended doesn't return from a call
/// of an earlier life.
#[tactic(auto, using(crate::proofs::OnceAlong::once_along))]
pub fn each_call_ends_once()
    ensures { (conf : KConf) (addr : ℕ) (routines : List ObjId) (events : List NodeEv) → IsDeclarable conf → Once (log_of (opened_node conf addr routines) events) }
{}
