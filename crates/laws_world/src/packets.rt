ghost use Rattle.std.specs.Prelude.{◌≡◌, List, [], map};
ghost use Rattle.it_types.specs.declared.entry.Entry.{Entry};
ghost use Rattle.it_types.specs.declared.node_conf.Conf.{Conf};
ghost use Rattle.spec_world.specs.PlainWorld.{opened_world};
ghost use Rattle.spec_world.specs.History.{after, IsRun};
ghost use Rattle.laws_world.specs.Packets.{bytes_of, all_packs, sent_in};

/// The packets after the entries of a run are those that its entries have, in order, and each was sent by the node at which
/// the event of its entry happens.
#[tactic(auto, using(crate::proofs::Sending::bytes_sent, crate::proofs::Sending::packets_sent))]
pub fn packets_are_those_of_the_entries()
    ensures bytes { (conf : Conf) (log : List Entry) → IsRun conf log → map bytes_of (after (opened_world conf) log).packets ≡ all_packs log }
    ensures senders { (conf : Conf) (log : List Entry) → IsRun conf log → (after (opened_world conf) log).packets ≡ sent_in [] log }
{}
