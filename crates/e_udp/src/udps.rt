ghost use Rattle.std.specs.Prelude.{◌≡◌, IfOk, None, replicate};
ghost use Rattle.spec_udp.specs.PlainUdps.{opened_udps};

use crate::Point;
use it_types::{NoMemory, ObjId, TABLE_PLACES};
use std::alloc::Global;
use std::marker::Model;

/// The UDP end points of one node by their ids. The calls that wait there are in the node's `Pend`, which is lent to each call.
/// After `NoMemory` neither is used again, and nothing is said of what they hold.
#[derive(Debug, Drop)]
pub struct Udps {
    pub(crate) addr: u32,
    pub(crate) routines: Vec<ObjId>,
    pub(crate) points: Vec<Option<Point>>,
}

impl Model for Udps {
    ghost use Rattle.std.specs.Prelude.{◌≡◌, length};
    ghost use Rattle.spec_udp.specs.PlainUdps.{PlainUdps};

    ghost Value = { PlainUdps };

    ghost view = { λ u. record { addr = u.addr; routines = u.routines.items; points = u.points.items } };

    ghost invariant = { λ u. length u.points.items ≡ 17 };
}

// A table with a place for each id, without end points.
fn empty_table(alloc: Global) -> Result<Vec<Option<Point>>, NoMemory>
    ensures { IfOk result (λ points. points.items ≡ replicate 17 None) }
{
    let mut points = Vec::new(alloc);
    for _place in 0..TABLE_PLACES {
        points.push(None)?;
    }
    Ok(points)
}

impl Udps {
    /// The end points of a node with this IPv4 address and these callback routines at its opening: there are none.
    pub fn open(alloc: Global, addr: u32, cbrs: &[ObjId]) -> Result<Udps, NoMemory>
        ensures { IfOk result (λ u. u ≡ opened_udps addr cbrs.now) }
    {
        let points = empty_table(alloc)?;
        Ok(Udps {
            addr,
            routines: Vec::from_slice(alloc, cbrs)?,
            points,
        })
    }
}
