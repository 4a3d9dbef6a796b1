ghost use Rattle.std.specs.Prelude.{◌≡◌};
ghost use Rattle.spec_wire.specs.Positions.{offset_of};

/// How far a sequence number is past another, from -2^31 to 2^31 - 1: sequence numbers go round at 2^32 (RFC 9293, section
/// 3.4).
pub fn offset_of(seq: u32, base: u32) -> i32
    ensures { result ≡ offset_of seq base }
{
    seq.wrapping_sub(base).cast_signed()
}
