ghost use Rattle.std.specs.Prelude.{◌≤◌};
ghost use Rattle.spec_tcp.specs.Connection.{Connection};
ghost use Rattle.laws_tcp.specs.Laws.{IsCounted, right_edge};
ghost use Rattle.laws_tcp.specs.Runs.{IsReached, LeadsTo};

/// Once the peer's SYN has come, RCV.NXT is IRS + 1, and the number of bytes that were taken or are unread, and one more past the
/// peer's FIN (RFC 9293, section 3.4).
pub fn received_bytes_are_counted()
    ensures { (c : Connection) → IsReached c → IsCounted c.rcv }
{}

/// The right edge of the receive window never moves back (`moves`), and is from then on at or past the one that was told last (`told`;
/// RFC 9293, section 3.8.6: a receiver should not shrink the window).
pub fn windows_are_never_taken_back()
    ensures moves { (c : Connection) (d : Connection) → IsReached c → LeadsTo c d → right_edge c.rcv ≤ right_edge d.rcv }
    ensures told { (c : Connection) (d : Connection) → IsReached c → LeadsTo c d → c.rcv.edge ≤ right_edge d.rcv }
{}
