ghost use Rattle.std.specs.Prelude.{ℕ, ◌<◌, ◌^◌};
ghost use Rattle.spec_wire.specs.Segment.{IsWritable, Reads, Segment, written};

/// What is written is read as the same segment under the same addresses.
pub fn what_is_written_is_read()
    ensures { (src : ℕ) (dst : ℕ) (s : Segment) → src < 2 ^ 32 → dst < 2 ^ 32 → IsWritable s → Reads src dst (written src dst s) s }
{}
