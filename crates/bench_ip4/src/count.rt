ghost use Rattle.std.specs.Prelude.{◌≡◌, ◌↔◌, ◌<◌, ◌^◌, ℕ, IfSome, IsTrue, Some, decimal};

use itoa::Buffer;

fn is_decimal(word: &str, number: u32) -> bool
    ensures { IsTrue result ↔ (word.now ≡ decimal number) }
{
    let mut buffer = Buffer::new();
    buffer.format(number) == word
}

/// The number that a word is: decimal digits without a sign or a leading zero, below 2^32.
pub fn count_of(word: &str) -> Option<u32>
    ensures some { IfSome result (λ n. word.now ≡ decimal n) }
    ensures all { (n : ℕ) → n < 2 ^ 32 → word.now ≡ decimal n → result ≡ Some n }
{
    match word.parse::<u32>() {
        Ok(number) if is_decimal(word, number) => Some(number),
        _ => None,
    }
}
