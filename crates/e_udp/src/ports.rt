ghost use Rattle.std.specs.Prelude.{◌≡◌, ◌≤◌, length};
ghost use Rattle.std.specs.List.{position};
ghost use Rattle.spec_udp.specs.Ports.{is_taken, free_port, port_for};
ghost use Rattle.spec_udp.specs.Points.{has_port};

use crate::Point;
use crate::points::has_port;

// RFC 6335, section 6.
const FIRST_DYNAMIC_PORT: u16 = 49152;

/// The place of the first end point with the port.
pub(crate) fn first_with(points: &[Option<Point>], port: u16) -> Option<usize>
    ensures { result ≡ position (has_port port) points.now }
{
    points.iter().position(|point| has_port(point, port))
}

/// An end point has the port.
pub(crate) fn is_taken(points: &[Option<Point>], port: u16) -> bool
    ensures { result ≡ is_taken points.now port }
{
    points.iter().any(|point| has_port(point, port))
}

/// The least dynamic port that no end point has.
fn free_port(points: &[Option<Point>]) -> u16
    requires { length points.now ≤ 17 }
    ensures { result ≡ free_port points.now }
{
    let mut port = FIRST_DYNAMIC_PORT;
    let mut left = points.len();
    while left > 0 && is_taken(points, port) {
        port += 1;
        left -= 1;
    }
    port
}

/// The port of a new end point: the one that was asked for, or with 0 any.
pub(crate) fn port_for(points: &[Option<Point>], port: u16) -> u16
    requires { length points.now ≤ 17 }
    ensures { result ≡ port_for points.now port }
{
    if port == 0 { free_port(points) } else { port }
}
