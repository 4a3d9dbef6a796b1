ghost use Rattle.std.specs.Prelude.{◌≡◌, ◌≤◌, ℕ, true};
ghost use Rattle.std.specs.List.{All};
ghost use Rattle.spec_tcp.specs.Acts.{Act, done, may_happen};
ghost use Rattle.spec_tcp.specs.Connection.{Connection};
ghost use Rattle.spec_tcp.specs.Emission.{emitted, sends_data, sent_parts};
ghost use Rattle.laws_tcp.specs.Laws.{CarriesCommitted, NeverFalls, PartWasCommitted};
ghost use Rattle.laws_tcp.specs.Runs.{IsReached, LeadsTo};

/// What goes out after any event lies within the bytes that were committed and are not acknowledged, from SND.UNA on, and a FIN stands
/// only past the last byte of a shut stream: each part of the send sequence space (`parts`), and each segment with data or
/// a FIN (`segments`).
pub fn what_goes_out_was_committed()
    ensures parts { (c : Connection) (act : Act) (now : ℕ) → IsReached c → may_happen act c ≡ true → sends_data (done act c now).state ≡ true → All (PartWasCommitted (done act c now).snd) (sent_parts (done act c now).snd (done act c now).facts.expired) }
    ensures segments { (c : Connection) (act : Act) (now : ℕ) → IsReached c → may_happen act c ≡ true → All (CarriesCommitted (done act c now).snd) (emitted (done act c now)) }
{}

/// RCV.NXT, SND.UNA and SND.NXT never fall (`falls`), and nothing is acknowledged that was not sent: SND.UNA is at most SND.NXT
/// (`order`; RFC 9293, section 3.4).
pub fn positions_never_fall()
    ensures falls { (c : Connection) (d : Connection) → IsReached c → LeadsTo c d → NeverFalls c d }
    ensures order { (c : Connection) → IsReached c → c.snd.una ≤ c.snd.nxt }
{}
