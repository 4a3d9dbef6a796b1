ghost use Rattle.std.specs.Prelude.{◌≡◌, ◌==◌, option_copied};
ghost use Rattle.std.specs.List.{list_any};
ghost use Rattle.spec_udp.specs.Rows.{is_unknown, is_untold};

use crate::Point;
use crate::points::routine_at;
use it_types::{ObjId, Tmo};

/// A non-blocking call, of whose end no routine could be told.
pub(crate) fn is_untold(point: Option<&Point>, tmo: Tmo) -> bool
    ensures { result ≡ is_untold (option_copied point.entry) tmo }
{
    tmo.is_nblk() && routine_at(point).0 == 0
}

fn is_declared(routines: &[ObjId], cbr: ObjId) -> bool
    ensures { result ≡ list_any (λ r. r.0 == cbr.0) routines.now }
{
    routines.iter().any(|routine| routine.0 == cbr.0)
}

/// The routine is neither none nor declared.
pub(crate) fn is_unknown(routines: &[ObjId], cbr: ObjId) -> bool
    ensures { result ≡ is_unknown routines.now cbr }
{
    cbr.0 != 0 && !is_declared(routines, cbr)
}
