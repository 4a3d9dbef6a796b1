ghost use Rattle.std.specs.Prelude.{◌≡◌, ◌≢◌, ℕ, true};
ghost use Rattle.spec_wire.specs.Segment.{Segment, has, rst_flag, seg_len};
ghost use Rattle.spec_tcp.specs.declared.state.State.TheVariants.{SynSent, Broken};
ghost use Rattle.spec_tcp.specs.Arrival.{arrive, is_acceptable, seq_of};
ghost use Rattle.spec_tcp.specs.Connection.{Connection};
ghost use Rattle.laws_tcp.specs.Laws.{is_resettable};

/// In every state but SYN-SENT a segment that arrives breaks a connection only if it is a reset at exactly RCV.NXT (`only`), and an acceptable
/// reset there does (`breaks`), but in TIME-WAIT, CLOSED and BROKEN (RFC 9293, section 3.10.7.4).
pub fn resets_are_exact()
    ensures only { (c : Connection) (s : Segment) (now : ℕ) → c.state ≢ SynSent → c.state ≢ Broken → (arrive c s now).state ≡ Broken → (has rst_flag s ≡ true) × (seq_of c s ≡ c.rcv.nxt) }
    ensures breaks { (c : Connection) (s : Segment) (now : ℕ) → is_resettable c.state ≡ true → is_acceptable c.rcv (seq_of c s) (seg_len s) ≡ true → has rst_flag s ≡ true → seq_of c s ≡ c.rcv.nxt → (arrive c s now).state ≡ Broken }
{}
