ghost use Rattle.std.specs.Prelude.{◌≡◌, ◌==◌, nat_eq};
ghost use Rattle.std.specs.List.{position};
ghost use Rattle.std.specs.Cmp.Lexicographic.{pointwise};
ghost use Rattle.it_types.specs.Cursor.{Gives, after, at_end, split_while};
ghost use Rattle.it_types.specs.Cursor.{is_no_space};

/// The bytes after the word, where they begin with it.
pub fn after<'a>(word: &[u8], bytes: &'a [u8]) -> Option<&'a [u8]>
    ensures { Gives (λ x. x.now) result (after word.now bytes.now) }
{
    bytes.strip_prefix(word)
}

/// What was read, where nothing follows it.
pub fn at_end<T: Drop>(rest: &[u8], read: T) -> Option<T>
    ensures { result ≡ at_end rest.now read }
{
    match rest {
        [] => Some(read),
        [_, ..] => None,
    }
}

fn space_at(bytes: &[u8]) -> Option<usize>
    ensures { result ≡ position (λ byte. byte == 32) bytes.now }
{
    bytes.iter().position(|byte| *byte == b' ')
}

/// The first word, and the bytes from the space after it on.
pub fn split_word(bytes: &[u8]) -> (&[u8], &[u8])
    ensures { (result.0.now, result.1.now) ≡ split_while is_no_space bytes.now }
{
    match space_at(bytes) {
        Some(len) => bytes.split_at(len),
        None => (bytes, &[]),
    }
}

/// Whether the two are one word.
pub fn is_word(word: &[u8], other: &[u8]) -> bool
    ensures { result ≡ pointwise nat_eq word.now other.now }
{
    word == other
}
