//! The numbers that tokens spell: those of instructions, of 64 bits, and those of steps, of 32.
ghost use Rattle.std.specs.Prelude.{◌≡◌, ◌+◌, ◌*◌, ◌≤◌, SomeIff};
ghost use Rattle.text_tokens.specs.Numbers.{number_of, small_number_of, begins_number, digits_of, few_digits_of, most_hex_digits, below};

/// How many digits a decimal number may have, if no `-` is before them.
const MAX_DIGITS: usize = 20;

/// How many digits a hexadecimal number may have.
const MAX_HEX_DIGITS: usize = 16;

/// How many digits a number of a step may have.
const MAX_SMALL_DIGITS: usize = 10;

/// The number with one more digit, where that is at most `most`.
fn with_digit(radix: u32, most: u64, number: u64, digit: u32) -> Option<u64>
    ensures { SomeIff result (number * radix + digit ≤ most) (number * radix + digit) }
{
    number
        .checked_mul(u64::from(radix))?
        .checked_add(u64::from(digit))
        .filter(|next| *next <= most)
}

/// The value of one digit or more and nothing else, where it is at most `most`.
///
/// Once the value has passed `most` no further digit brings it back, so the loop ends there.
#[tactic(auto, using(crate::proofs::OneMoreDigit::digit_steps))]
fn digits_up_to(radix: u32, most: u64, digits: &[u8]) -> Option<u64>
    requires low { 2 ≤ radix }
    requires high { radix ≤ 36 }
    ensures { result ≡ below (most + 1) (digits_of radix digits.now) }
{
    if digits.is_empty() {
        return None;
    }
    let mut number = 0;
    for byte in digits {
        let digit = char::from(*byte).to_digit(radix)?;
        number = with_digit(radix, most, number, digit)?;
    }
    Some(number)
}

/// The value of 1 to `max_digits` digits and nothing else, where it is at most `most`.
fn few_digits_up_to(max_digits: usize, radix: u32, most: u64, digits: &[u8]) -> Option<u64>
    requires low { 2 ≤ radix }
    requires high { radix ≤ 36 }
    ensures { result ≡ below (most + 1) (few_digits_of max_digits radix digits.now) }
{
    if digits.len() <= max_digits {
        digits_up_to(radix, most, digits)
    } else {
        None
    }
}

/// The value of 1 to 16 hexadecimal digits.
#[tactic(auto, using(crate::proofs::OneMoreDigit::hex_fits))]
fn hex_value(digits: &[u8]) -> Option<u64>
    ensures { result ≡ few_digits_of most_hex_digits 16 digits.now }
{
    few_digits_up_to(MAX_HEX_DIGITS, 16, u64::MAX, digits)
}

/// Whether the token is meant as a number: it begins with a digit or `-`.
pub fn begins_number(token: &[u8]) -> bool
    ensures { result ≡ begins_number token.now }
{
    match token {
        [] => false,
        [first, ..] => first.is_ascii_digit() || *first == b'-',
    }
}

/// The number that the token spells, below 2^64.
///
/// It is 1 to 20 decimal digits; or `0x` and 1 to 16 hexadecimal digits of either case; or `-` and
/// any count of decimal digits, at least one, of a number up to 2^63, taken modulo 2^64.
#[tactic(auto, unfolding(crate::specs::Numbers::number_of))]
pub fn number(token: &[u8]) -> Option<u64>
    ensures { result ≡ number_of token.now }
{
    if let Some(digits) = token.strip_prefix(b"0x") {
        return hex_value(digits);
    }
    if let Some(digits) = token.strip_prefix(b"-") {
        let size = digits_up_to(10, 1 << 63, digits)?;
        return Some(0u64.wrapping_sub(size));
    }
    few_digits_up_to(MAX_DIGITS, 10, u64::MAX, token)
}

/// The number that the token spells: 1 to 10 decimal digits, below 2^32.
#[tactic(auto, unfolding(crate::specs::Numbers::small_number_of))]
pub fn small_number(token: &[u8]) -> Option<u32>
    ensures { result ≡ small_number_of token.now }
{
    let number = few_digits_up_to(MAX_SMALL_DIGITS, 10, u64::from(u32::MAX), token)?;
    Some(number as u32)
}
