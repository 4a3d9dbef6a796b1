ghost use Rattle.std.specs.Prelude.{List, ℕ, ◌++◌};
ghost use Rattle.spec_wire.specs.Ipv4.{Ipv4, IsWritable, Reads, written};

/// What is written is read as the same datagram with a time to live of 64, whatever bytes follow it.
pub fn what_is_written_is_read()
    ensures { (v : Ipv4) (after : List ℕ) → IsWritable v → Reads (written v ++ after) (record v { ttl = 64 }) }
{}
