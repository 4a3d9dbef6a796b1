ghost use Rattle.std.specs.Prelude.{List, ℕ, ◌++◌, ◌<◌, ◌^◌};
ghost use Rattle.spec_wire.specs.Udp.{IsWritable, Reads, UserDatagram, written};

/// What is written is read as the same datagram under the same addresses, whatever bytes follow it.
pub fn what_is_written_is_read()
    ensures { (src : ℕ) (dst : ℕ) (u : UserDatagram) (after : List ℕ) → src < 2 ^ 32 → dst < 2 ^ 32 → IsWritable u → Reads src dst (written src dst u ++ after) u }
{}
