//! How names, numbers and identifiers are spelled.

ghost use Rattle.std.specs.Prelude.{◌≡◌, ◌+◌, ◌*◌, ◌^◌, ◌<◌, IsTrue, SomeIff, option_map};
ghost use Rattle.std.specs.Char.{digit_value, is_ascii_digit};
ghost use Rattle.std.specs.List.{list_all};
ghost use Rattle.scenario_reader.specs.Spelling.{is_name_byte, is_name, is_decimal, number_of, is_dash, behind_at};

use crate::limits::MOST_LETTERS;

/// Whether these bytes are 1 to [`MOST_LETTERS`] letters, digits or underscores.
pub fn is_name(text: &[u8]) -> bool
    ensures { result ≡ is_name text.now }
{
    !text.is_empty() && text.len() <= MOST_LETTERS && are_name_bytes(text)
}

fn are_name_bytes(text: &[u8]) -> bool
    ensures { result ≡ list_all is_name_byte text.now }
{
    text.iter().all(|byte| is_name_byte(*byte))
}

#[tactic(auto, unfolding(crate::specs::Spelling::is_name_byte))]
fn is_name_byte(byte: u8) -> bool
    ensures { result ≡ is_name_byte byte }
{
    byte.is_ascii_alphanumeric() || byte == b'_'
}

/// The number that a word spells in decimal, without zeros in front. None where it spells none, or one above
/// 18,446,744,073,709,551,615.
pub fn number(text: &[u8]) -> Option<u64>
    ensures { result ≡ number_of text.now }
{
    if !is_decimal(text) {
        return None;
    }
    let mut value: u64 = 0;
    for digit in text {
        value = with_digit(value, *digit)?;
    }
    Some(value)
}

/// The number with one more digit behind it, None where it is above 18,446,744,073,709,551,615.
fn with_digit(number: u64, digit: u8) -> Option<u64>
    requires { IsTrue (is_ascii_digit digit) }
    ensures { SomeIff result (number * 10 + digit_value digit < 2 ^ 64) (number * 10 + digit_value digit) }
{
    number.checked_mul(10)?.checked_add(u64::from(digit - b'0'))
}

/// Whether these bytes are `0`, or decimal digits that do not begin with 0.
fn is_decimal(text: &[u8]) -> bool
    ensures { result ≡ is_decimal text.now }
{
    match text {
        [] => false,
        [digit] => digit.is_ascii_digit(),
        [first, ..] => *first != b'0' && are_digits(text),
    }
}

fn are_digits(text: &[u8]) -> bool
    ensures { result ≡ list_all is_ascii_digit text.now }
{
    text.iter().all(|byte| byte.is_ascii_digit())
}

/// Whether a word is `-`, which spells no bytes and, for a node, the identifier of its name.
pub fn is_dash(text: &[u8]) -> bool
    ensures { result ≡ is_dash text.now }
{
    text == b"-".as_slice()
}

/// The name behind the `@` of `@FILE`; None where the word does not begin so.
pub fn behind_at(text: &[u8]) -> Option<&[u8]>
    ensures { option_map (λ name. name.now) result ≡ behind_at text.now }
{
    match text {
        [b'@', name @ ..] => Some(name),
        _ => None,
    }
}
