//! Plain digits, and the ids that the node gives.
ghost use Rattle.std.specs.Prelude.{◌≡◌, ◌≤◌};
ghost use Rattle.adr_state.specs.Digits.{most_number, number_within, number_in, is_digit, starts_with_zero};

use adr_objects::Number;
use adr_text::ObjectId;

/// The largest number that the serial may reach.
pub const MOST_NUMBER: u64 = 9_000_000_000_000_000;

fn is_digit(byte: u8) -> bool
    ensures { result ≡ is_digit byte }
{
    48 <= byte && byte <= 57
}

/// The number that plain digits write, where it is at most `most`. Leading zeros are allowed.
pub fn number_within(most: u64, digits: &[u8]) -> Option<u64>
    requires { most ≤ most_number }
    ensures { result ≡ number_within most digits.now }
{
    if digits.is_empty() {
        return None;
    }
    let mut number = 0u64;
    for byte in digits {
        if !is_digit(*byte) {
            return None;
        }
        number = number * 10 + (*byte - 48) as u64;
        if most < number {
            return None;
        }
    }
    Some(number)
}

/// The number of an id that the node gave: its letter, and then the number in digits.
pub fn number_in(letter: u8, id: &ObjectId) -> Option<Number>
    ensures { result ≡ number_in letter id.now }
{
    let (first, digits) = id.as_str().as_bytes().split_first()?;
    if *first != letter || starts_with_zero(digits) {
        return None;
    }
    let number = number_within(MOST_NUMBER, digits)?;
    Some(Number::new(number))
}

fn starts_with_zero(digits: &[u8]) -> bool
    ensures { result ≡ starts_with_zero digits.now }
{
    match digits.split_first() {
        Some((first, _)) => *first == 48,
        None => false,
    }
}
