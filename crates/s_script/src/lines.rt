ghost use Rattle.std.specs.Prelude.{◌≡◌, ◌<◌, ◌==◌, [], length, IfSome, MatchOption};
ghost use Rattle.std.specs.List.{position};
ghost use Rattle.spec_script.specs.Text.{split_lines, is_skipped};
ghost use Rattle.s_script.specs.Cutting.{BeginsWith};

fn line_len(text: &[u8]) -> Option<usize>
    ensures first { result ≡ position (λ byte. byte == 10) text.now }
    ensures within { IfSome result (λ len. len < length text.now) }
{
    text.iter().position(|byte| *byte == b'\n')
}

/// The first line of a text, without its LF, and the bytes after it; none where the text has no LF.
pub fn cut(text: &[u8]) -> Option<(&[u8], &[u8])>
    ensures { MatchOption result (split_lines text.now ≡ ([], text.now))
        (λ x. BeginsWith text.now x.0.now x.1.now × (length x.1.now < length text.now)) }
{
    let len = line_len(text)?;
    Some((&text[..len], &text[len + 1..]))
}

/// Whether the line is skipped: it is empty or begins with `#`.
pub fn is_skipped(line: &[u8]) -> bool
    ensures { result ≡ is_skipped line.now }
{
    match line {
        [] => true,
        [first, ..] => *first == b'#',
    }
}
