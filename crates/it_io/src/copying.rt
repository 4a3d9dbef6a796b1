ghost use Rattle.std.specs.Prelude.{◌≡◌, ◌++◌, min, take, drop, length};

// Copies the first bytes, at most a piece of them, to the front of `to`, and says how many.
pub(crate) fn copy_piece(from: &[u8], piece: usize, to: &mut [u8]) -> usize
    ensures count { result ≡ min (length from.now) (min piece (length to.old)) }
    ensures copied { to.new ≡ take result from.now ++ drop result to.old }
{
    let n = from.len().min(piece.min(to.len()));
    to[..n].copy_from_slice(&from[..n]);
    n
}
