ghost use Rattle.std.specs.Prelude.{List, ℕ};
ghost use Rattle.spec_link.specs.Fates.{IsWithin};
ghost use Rattle.spec_link.specs.Link.{PlainLink, next_fate, opened_link};
ghost use Rattle.spec_link.specs.Operations.{Delivers, Operation, after};

/// Over every list of operations from the opening: each packet that is delivered was sent, none is delivered exactly where no
/// delivery is due, and deliveries come in their order.
pub fn each_delivery_was_sent()
    ensures { (key lose twice delay : ℕ) (operations : List Operation) → Delivers operations (after (opened_link key lose twice delay) operations) }
{}

/// No copy of a packet is due later than the link's delay after the sending.
pub fn no_copy_is_later()
    ensures { (link : PlainLink) → IsWithin link.delay (next_fate link) }
{}
