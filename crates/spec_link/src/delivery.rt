ghost use Rattle.std.proofs.Common.{rules};
ghost use Rattle.std.specs.Cmp.Rules.{comparing};
ghost use Rattle.std.specs.Cmp.{partial_order_from_own_ties};
ghost use Rattle.std.specs.Ordering.{as_partial_cmp, nat_cmp, on, then_cmp};

use it_types::PackNo;
use std::cmp::Ordering;

/// A copy of a packet that is under way. Deliveries are ordered by the tick at which each is due, then by packet, then by copy.
#[derive(Clone, Copy, Debug, PartialEq, Eq)]
pub struct Delivery {
    /// In ticks of the link's clock.
    pub due: u64,
    pub packet: PackNo,
    /// 1 or 2.
    pub copy: u8,
}

impl Ord for Delivery {
    ghost cmp = { then_cmp (on (λ d. d.due) nat_cmp) (then_cmp (on (λ d. d.packet.0) nat_cmp) (on (λ d. d.copy) nat_cmp)) };

    ghost total = { Prim.search (comparing, rules) };

    ghost matches_partial_cmp = { Prim.search (comparing, rules) };

    ghost matches_eq = { Prim.search (comparing, rules) };

    fn cmp(&self, other: &Delivery) -> Ordering {
        let by_copy = self.copy.cmp(&other.copy);
        let by_packet = self.packet.0.cmp(&other.packet.0).then(by_copy);
        self.due.cmp(&other.due).then(by_packet)
    }
}

impl PartialOrd for Delivery {
    ghost partial_cmp = { as_partial_cmp (then_cmp (on (λ d. d.due) nat_cmp) (then_cmp (on (λ d. d.packet.0) nat_cmp) (on (λ d. d.copy) nat_cmp))) };

    ghost laws = { partial_order_from_own_ties (Prim.search (comparing, rules)) (Prim.search (comparing, rules)) };

    fn partial_cmp(&self, other: &Delivery) -> Option<Ordering> {
        Some(self.cmp(other))
    }
}
