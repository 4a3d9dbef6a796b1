ghost use Rattle.std.specs.Prelude.{◌≡◌, ◌<◌, ◌≤◌, None, Some, length, option_copied, slice_get, true};
ghost use Rattle.spec_lists.specs.Tables.{get, change};
ghost use Rattle.spec_udp.specs.Points.{is_wrong_id};
ghost use Rattle.spec_udp.specs.Arrival.{has_place};
ghost use Rattle.spec_udp.specs.Points.{has_port, joined, local_port, queue_of, routine_at, sending_at, wanted_at, with_wanted, without_oldest};

use crate::Point;
use it_types::{CepId, GREATEST_ID, ObjId};
use spec_udp::Received;

/// The id is none of a UDP end point.
pub(crate) fn is_wrong_id(id: u32) -> bool
    ensures { result ≡ is_wrong_id id }
{
    id == 0 || id > GREATEST_ID
}

pub(crate) fn has_port(point: &Option<Point>, port: u16) -> bool
    ensures { result ≡ has_port port point.now }
{
    match point {
        Some(point) => point.port() == port,
        None => false,
    }
}

pub(crate) fn point_at(points: &[Option<Point>], cep: CepId) -> Option<&Point>
    ensures { option_copied result ≡ get points.now cep.0 }
{
    match points.get(cep.0 as usize) {
        Some(Some(point)) => Some(point),
        _ => None,
    }
}

/// The port of an end point, 0 where there is none.
pub(crate) fn local_port(point: Option<&Point>) -> u16
    ensures { result ≡ local_port (option_copied point.entry) }
{
    match point {
        Some(point) => point.port(),
        None => 0,
    }
}

/// The callback routine of an end point, or none.
pub(crate) fn routine_at(point: Option<&Point>) -> ObjId
    ensures routine { result ≡ routine_at (option_copied point.entry) }
    ensures idle { sending_at (option_copied point.entry) ≡ None }
{
    match point {
        Some(point) => point.routine(),
        None => ObjId(0),
    }
}

/// How many bytes the receive wants that waits at an end point.
pub(crate) fn wanted_at(point: Option<&Point>) -> u32
    ensures wanted { result ≡ wanted_at (option_copied point.entry) }
    ensures within { result ≤ 65280 }
{
    match point {
        Some(point) => point.wanted(),
        None => 0,
    }
}

/// A datagram more has a place at an end point.
pub(crate) fn has_place(point: Option<&Point>) -> bool
    ensures { result ≡ has_place (option_copied point.entry) }
{
    match point {
        Some(point) => point.has_place(),
        None => true,
    }
}

/// Puts an end point under an id, or leaves none there.
pub(crate) fn put(points: &mut Vec<Option<Point>>, cep: CepId, point: Option<Point>)
    ensures { points.new.items ≡ change points.old.items cep.0 (λ _. point) }
{
    let place = cep.0 as usize;
    if place < points.len() {
        points[place] = point;
    }
}

/// A receive wants so many bytes of an end point.
pub(crate) fn want(points: &mut Vec<Option<Point>>, cep: CepId, len: u32)
    requires { len ≤ 65280 }
    ensures { points.new.items ≡ change points.old.items cep.0 (with_wanted len) }
{
    let place = cep.0 as usize;
    if place < points.len() {
        if let Some(point) = &mut points[place] {
            point.want(len);
        }
    }
}

/// Takes the oldest datagram of an end point.
pub(crate) fn take_oldest(points: &mut Vec<Option<Point>>, cep: CepId) -> Option<Received>
    ensures oldest { result ≡ slice_get (queue_of (get points.old.items cep.0)) 0 }
    ensures points { points.new.items ≡ change points.old.items cep.0 without_oldest }
{
    let place = cep.0 as usize;
    if place >= points.len() {
        return None;
    }
    match &mut points[place] {
        Some(point) => point.take(),
        None => None,
    }
}

/// A datagram joins the queue of an end point.
pub(crate) fn join(points: &mut Vec<Option<Point>>, cep: CepId, datagram: Received)
    requires { has_place (get points.old.items cep.0) ≡ true }
    ensures { points.new.items ≡ change points.old.items cep.0 (joined datagram) }
{
    let place = cep.0 as usize;
    if place < points.len() {
        if let Some(point) = &mut points[place] {
            point.join(datagram);
        }
    }
}
