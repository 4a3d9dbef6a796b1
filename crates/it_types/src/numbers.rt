ghost use Rattle.std.specs.Prelude.{◌≡◌, not};
ghost use Rattle.std.specs.List.{position};
ghost use Rattle.std.specs.Char.{is_ascii_digit};
ghost use Rattle.std.specs.Str.Parse.{AllDigits};
ghost use Rattle.it_types.specs.Cursor.{Gives, split_while};
ghost use Rattle.it_types.specs.Numbers.{is_numeral, below, push_digit, value_of, number_at, address_of, address_at};

use crate::cursor::after;

fn digits_end(bytes: &[u8]) -> Option<usize>
    ensures { result ≡ position (λ byte. not (is_ascii_digit byte)) bytes.now }
{
    bytes.iter().position(|byte| !byte.is_ascii_digit())
}

fn split_digits(bytes: &[u8]) -> (&[u8], &[u8])
    ensures parts { (result.0.now, result.1.now) ≡ split_while is_ascii_digit bytes.now }
    ensures digits { AllDigits 10 result.0.now }
{
    match digits_end(bytes) {
        Some(len) => bytes.split_at(len),
        None => (bytes, &[]),
    }
}

fn is_numeral(digits: &[u8]) -> bool
    ensures { result ≡ is_numeral digits.now }
{
    match digits {
        [] => false,
        [first, others @ ..] => *first != b'0' || others.is_empty(),
    }
}

fn push_digit(value: Option<u64>, digit: u8) -> Option<u64>
    ensures { result ≡ push_digit value digit }
{
    value?.checked_mul(10)?.checked_add(u64::from(digit))
}

fn value_of(digits: &[u8]) -> Option<u64>
    requires { AllDigits 10 digits.now }
    ensures { result ≡ value_of digits.now }
{
    let mut value = Some(0);
    for digit in digits {
        value = push_digit(value, *digit - b'0');
    }
    value
}

/// The number at the front, `None` where it is 2^64 or more, and the bytes after it.
#[tactic(auto, unfolding(crate::specs::Numbers::number_at))]
pub fn number_at(bytes: &[u8]) -> Option<(Option<u64>, &[u8])>
    ensures { Gives (λ x. (x.0, x.1.now)) result (number_at bytes.now) }
{
    let (digits, rest) = split_digits(bytes);
    if is_numeral(digits) {
        Some((value_of(digits), rest))
    } else {
        None
    }
}

fn byte_of(part: Option<u64>) -> Option<u32>
    ensures { result ≡ below 256 part }
{
    let part = part?;
    if part < 256 { Some(part as u32) } else { None }
}

/// The number, where it has 32 bits.
pub fn u32_of(number: Option<u64>) -> Option<u32>
    ensures { result ≡ below 4294967296 number }
{
    let number = number?;
    if number < 4294967296 {
        Some(number as u32)
    } else {
        None
    }
}

/// The number, where it has 16 bits.
pub fn u16_of(number: Option<u64>) -> Option<u16>
    ensures { result ≡ below 65536 number }
{
    let number = number?;
    if number < 65536 {
        Some(number as u16)
    } else {
        None
    }
}

#[tactic(auto, unfolding(crate::specs::Cursor::and_then, crate::specs::Numbers::address_of))]
fn address_of(a: Option<u64>, b: Option<u64>, c: Option<u64>, d: Option<u64>) -> Option<u32>
    ensures { result ≡ address_of a b c d }
{
    let first = byte_of(a)?;
    let second = byte_of(b)?;
    let third = byte_of(c)?;
    let fourth = byte_of(d)?;
    Some(((first * 256 + second) * 256 + third) * 256 + fourth)
}

/// The address at the front, `None` where one of its parts is above 255, and the bytes after it.
#[tactic(auto, unfolding(crate::specs::Cursor::and_then, crate::specs::Numbers::address_at))]
pub fn address_at(bytes: &[u8]) -> Option<(Option<u32>, &[u8])>
    ensures { Gives (λ x. (x.0, x.1.now)) result (address_at bytes.now) }
{
    let (a, rest) = number_at(bytes)?;
    let (b, rest) = number_at(after(b".", rest)?)?;
    let (c, rest) = number_at(after(b".", rest)?)?;
    let (d, rest) = number_at(after(b".", rest)?)?;
    Some((address_of(a, b, c, d), rest))
}

/// The number, where it has 63 bits.
pub fn u63_of(number: Option<u64>) -> Option<u64>
    ensures { result ≡ below 9223372036854775808 number }
{
    let number = number?;
    if number < 9223372036854775808 {
        Some(number)
    } else {
        None
    }
}
