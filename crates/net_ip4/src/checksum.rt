//! The internet checksum: a pass over the bytes in a wide register, folded at the end of each piece.

ghost use Rattle.std.specs.Prelude.{◌≡◌, ◌≤◌, length, sum};
ghost use Rattle.spec_wire.specs.Sum.{end_around, folded, ones_sum, words};

use byteorder::{BigEndian, ByteOrder};

// How many bytes are summed up before the register is folded.
const PIECE: usize = 65536;

/// The sum of the bytes as words of 16 bits, not folded. An odd byte at the end counts as a word's high byte.
pub fn word_sum(bytes: &[u8]) -> u32
    requires { length bytes.now ≤ 65536 }
    ensures { result ≡ sum (words bytes.now) }
{
    let mut total = 0;
    let mut rest = bytes;
    while let [_, _, after @ ..] = rest {
        total += u32::from(BigEndian::read_u16(rest));
        rest = after;
    }
    match rest {
        [high] => total + u32::from(*high) * 256,
        _ => total,
    }
}

/// A sum of words as one word: the carries are added in at the low end.
pub fn fold(total: u32) -> u16
    ensures { result ≡ folded total }
{
    let once = total % 65536 + total / 65536;
    (once % 65536 + once / 65536) as u16
}

/// The one's complement sum of two words.
pub fn add(a: u16, b: u16) -> u16
    ensures { result ≡ end_around a b }
{
    fold(u32::from(a) + u32::from(b))
}

/// The one's complement sum of the bytes as words of 16 bits.
pub fn ones_sum(bytes: &[u8]) -> u16
    ensures { result ≡ ones_sum (words bytes.now) }
{
    let mut total = 0;
    let mut rest = bytes;
    while rest.len() > PIECE {
        let (piece, after) = rest.split_at(PIECE);
        total = add(total, fold(word_sum(piece)));
        rest = after;
    }
    add(total, fold(word_sum(rest)))
}
