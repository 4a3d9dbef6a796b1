ghost use Rattle.std.specs.Prelude.{⊤, [], ◌∷◌, codes};

use bitflags::{Flag, Flags, bitflag_items};

/// The flags of a segment (RFC 9293, section 3.1, "Control bits"), without those that are ignored: urgent data and the two of
/// explicit congestion notification. They are made and read by the calls of `Flags`.
#[derive(Clone, Copy, Debug, PartialEq, Eq)]
pub struct TcpFlags(u8);

bitflag_items! {
    impl TcpFlags: u8 {
        const FIN = 1;
        const SYN = 2;
        const RST = 4;
        const PSH = 8;
        const ACK = 16;
    }
}

impl Flags for TcpFlags {
    type Bits = u8;

    ghost exact = { ⊤ };

    ghost table = { (codes "FIN", 1) ∷ (codes "SYN", 2) ∷ (codes "RST", 4) ∷ (codes "PSH", 8) ∷ (codes "ACK", 16) ∷ [] };

    ghost set_of = { λ flags. flags.0 };

    fn flags<'a>() -> &'a [Flag<TcpFlags>] {
        TcpFlags::FLAGS
    }

    fn bits(&self) -> u8 {
        self.0
    }

    fn from_bits_retain(bits: u8) -> TcpFlags {
        TcpFlags(bits)
    }
}
