ghost use Rattle.std.specs.Prelude.{◌≡◌, ◌<◌, ◌≤◌, ℕ, true, false, List, Option};
ghost use Rattle.spec_udp.specs.Ports.{first_dynamic_port};
ghost use Rattle.spec_udp.specs.declared.point.UdpPoint.{UdpPoint};
ghost use Rattle.spec_udp.specs.Ports.{is_taken, free_port};

/// The port that an end point gets which asks for any is the least from 49,152 on that no end point has.
pub fn any_port_is_the_least_free()
    ensures free { (points : List (Option UdpPoint)) → is_taken points (free_port points) ≡ false }
    ensures least { (points : List (Option UdpPoint)) (port : ℕ) → first_dynamic_port ≤ port → port < free_port points → is_taken points port ≡ true }
{}
