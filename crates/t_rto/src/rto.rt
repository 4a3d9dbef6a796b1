ghost use Rattle.std.specs.Prelude.{◌≡◌, ◌<◌, ◌^◌};
ghost use Rattle.spec_tcp.specs.Timing.{after_expiry, heard, is_last, new_timer, restarted, running_from};

use std::marker::Model;

// The retransmission time at first, and at most, in ticks.
const FIRST: u64 = 1000;

const GREATEST: u64 = 60_000;

// The expiry at which a connection breaks.
const LAST_EXPIRY: u32 = 9;

/// The retransmission timer of a connection (RFC 9293, section 3.8.1; its times are this project's own): it runs or stands. The
/// retransmission time is 1,000 ticks at first, doubles at each expiry, and is at most 60,000.
#[derive(Clone, Copy, Debug)]
pub struct Rto {
    time: u64,
    count: u32,
    expires: Option<u64>,
}

impl Model for Rto {
    ghost use Rattle.spec_tcp.specs.Timing.{Timer};
    ghost use Rattle.t_rto.specs.Kept.{Kept};

    ghost Value = { Timer };

    ghost view = { λ t. record { rto = t.time; count = t.count; expires = t.expires } };

    ghost inverse = { λ t. record { time = t.rto; count = t.count; expires = t.expires } };

    ghost invariant = { λ t. Kept (record { rto = t.time; count = t.count; expires = t.expires }) };
}

impl Rto {
    /// A timer that stands.
    pub fn new() -> Rto
        ensures { result ≡ new_timer }
    {
        Rto {
            time: FIRST,
            count: 0,
            expires: None,
        }
    }

    /// Something was sent that asks for an acknowledgement, at the tick `now`: a timer that stands is started, and one that runs
    /// goes on.
    pub fn started(&mut self, now: u64)
        requires { now < 2 ^ 62 }
        ensures { self.new ≡ running_from self.old now }
    {
        if self.expires.is_none() {
            self.expires = Some(now + self.time);
        }
    }

    /// The tick at which it expires; none exactly where it stands.
    pub fn expires(&self) -> Option<u64>
        ensures { result ≡ self.now.expires }
    {
        self.expires
    }

    /// The time expired at the tick `now`: it starts again with twice the time, and answers false. The ninth time since
    /// something was heard of the peer it stands, and answers true: the connection breaks.
    pub fn expired(&mut self, now: u64) -> bool
        requires { now < 2 ^ 62 }
        ensures timer { self.new ≡ after_expiry self.old now }
        ensures last { result ≡ is_last self.old }
    {
        let last = self.count + 1 >= LAST_EXPIRY;
        if last {
            self.count = LAST_EXPIRY;
            self.expires = None;
        } else {
            self.time = GREATEST.min(2 * self.time);
            self.count += 1;
            self.expires = Some(now + self.time);
        }
        last
    }

    /// Something was heard of the peer: the expiries are counted from here on. The time stays.
    pub fn heard(&mut self)
        ensures { self.new ≡ heard self.old }
    {
        self.count = 0;
    }

    /// More was acknowledged at the tick `now`: the time is 1,000 ticks again, and the timer starts anew where `more` is left
    /// to be acknowledged, and stands otherwise.
    pub fn acked(&mut self, now: u64, more: bool)
        requires { now < 2 ^ 62 }
        ensures { self.new ≡ restarted now more }
    {
        self.time = FIRST;
        self.count = 0;
        self.expires = if more { Some(now + FIRST) } else { None };
    }
}
