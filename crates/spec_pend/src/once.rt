ghost use Rattle.std.specs.Prelude.{List};
ghost use Rattle.it_types.specs.declared.id.CallNo.{CallNo as ACallNo};
ghost use Rattle.spec_pend.specs.PlainPend.{opened_pend};
ghost use Rattle.spec_pend.specs.Once.{EndsOnce, MayAllBeDone, Operation};

/// Over every list of operations from the opening, in which each call is accepted under a number above the last one: a number is
/// accepted at most once, and somebody is told of its end at most once, only after that, and never again.
pub fn a_call_ends_once()
    ensures { (operations : List Operation) (number : ACallNo) → MayAllBeDone opened_pend operations → EndsOnce number operations }
{}
