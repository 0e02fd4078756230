//! Digits of hexadecimal, sixteen at a time.

ghost use Rattle.std.specs.Prelude.{◌≡◌, ◌+◌, ◌-◌, ◌*◌, ◌%◌, ◌≤◌, ◌<◌, if◌then◌else◌, nat_lt, true, length, slice_index, IsTrue, List, ℕ, ◌/◌, ◌++◌, map, take};
ghost use Rattle.std.specs.List.{list_all, range_with_len};
ghost use Rattle.hex.specs.Hex.{encode_lower, lower_digits};
ghost use Rattle.trace_text.specs.Digits.{AreDigitsOf, is_lower_digit};
ghost use Rattle.trace_text.specs.declared.lanes.TheConstants.{LANES, NO_DIGIT};
ghost use Rattle.trace_text.specs.Lanes.{AreValuesOf, HasLanes};

use std::simd::prelude::*;

/// What stands for the value of a byte that is no digit.
const NO_DIGIT: u8 = 16;

/// How many pairs of digits are read or written at once.
pub(crate) const LANES: usize = 16;

/// The lanes from a place on.
fn load(bytes: &[u8], place: usize) -> u8x16
    requires { place + 16 ≤ length bytes.now }
    ensures { HasLanes result (λ k. slice_index bytes.now (place + k)) }
{
    u8x16::from_slice(&bytes[place..])
}

/// Each lane, less a byte.
fn less(lanes: u8x16, byte: u8) -> u8x16
    ensures { HasLanes result (λ k. (slice_index lanes k + 256 - byte) % 256) }
{
    lanes - u8x16::splat(byte)
}

/// Each lane, and a byte more.
fn more(lanes: u8x16, byte: u8) -> u8x16
    ensures { HasLanes result (λ k. (slice_index lanes k + byte) % 256) }
{
    lanes + u8x16::splat(byte)
}

/// Where a lane is below a limit, that of one vector, and else that of the other.
fn where_below(lanes: u8x16, limit: u8, one: u8x16, other: u8x16) -> u8x16
    ensures { HasLanes result (λ k. if nat_lt (slice_index lanes k) limit then slice_index one k else slice_index other k) }
{
    lanes.simd_lt(u8x16::splat(limit)).select(one, other)
}

/// The values of digits in lower case; that of any other byte is [`NO_DIGIT`].
fn digit_values(digits: u8x16) -> u8x16
    ensures { AreValuesOf digits result }
{
    let from_zero = less(digits, b'0');
    let from_a = less(digits, b'a');
    let letters = where_below(from_a, 6, more(from_a, 10), u8x16::splat(NO_DIGIT));
    where_below(from_zero, 10, from_zero, letters)
}

/// The high and the low digits of sixteen pairs from a place on.
fn pairs_at(text: &[u8], place: usize) -> (u8x16, u8x16)
    requires { 2 * place + 32 ≤ length text.now }
    ensures high { HasLanes result.0 (λ k. slice_index text.now (2 * (place + k))) }
    ensures low { HasLanes result.1 (λ k. slice_index text.now (2 * (place + k) + 1)) }
{
    let first = load(text, 2 * place);
    let second = load(text, 2 * place + 16);
    first.deinterleave(second)
}

/// The greater ones, lane by lane.
fn greater(one: u8x16, other: u8x16) -> u8x16
    ensures { HasLanes result (λ k. if nat_lt (slice_index one k) (slice_index other k) then slice_index other k else slice_index one k) }
{
    one.simd_max(other)
}

/// Whether all lanes are below [`NO_DIGIT`].
fn are_small(lanes: u8x16) -> bool
    ensures yes { IsTrue result → (k : ℕ) → k < 16 → slice_index lanes k < 16 }
    ensures no { ((k : ℕ) → k < 16 → slice_index lanes k < 16) → IsTrue result }
{
    lanes.simd_ge(u8x16::splat(NO_DIGIT)).to_bitmask() == 0
}

/// Sixteen times the high lanes, and the low ones.
fn join(high: u8x16, low: u8x16) -> u8x16
    ensures { HasLanes result (λ k. (slice_index high k * 16 + slice_index low k) % 256) }
{
    high * u8x16::splat(16) + low
}

/// Reads sixteen pairs of digits from a place on, and answers whether all of them are digits in lower case.
fn read_block(text: &[u8], bytes: &mut [u8], place: usize) -> bool
    requires text { 2 * place + 32 ≤ length text.now }
    requires bytes { place + 16 ≤ length bytes.old }
    ensures len { length bytes.new ≡ length bytes.old }
    ensures read { IsTrue result → AreDigitsOf (take (2 * place) text.now) (take place bytes.old) →
        AreDigitsOf (take (2 * (place + 16)) text.now) (take (place + 16) bytes.new) }
    ensures spelled { list_all is_lower_digit text.now ≡ true → IsTrue result }
{
    let (high, low) = pairs_at(text, place);
    let high = digit_values(high);
    let low = digit_values(low);
    join(high, low).copy_to_slice(&mut bytes[place..]);
    are_small(greater(high, low))
}

/// The value of a digit in lower case, and [`NO_DIGIT`] of any other byte.
fn digit_value(byte: u8) -> u8
    ensures digit { result < NO_DIGIT → slice_index lower_digits result ≡ byte }
    ensures lower { is_lower_digit byte ≡ true → result < NO_DIGIT }
{
    if byte >= b'0' && byte <= b'9' {
        byte - b'0'
    } else if byte >= b'a' && byte <= b'f' {
        byte - b'a' + 10
    } else {
        NO_DIGIT
    }
}

/// Reads the digits of a word, pair by pair, and answers whether all of them are digits in lower case.
fn read_few(text: &[u8], bytes: &mut [u8]) -> bool
    requires { length text.now ≡ 2 * length bytes.old }
    ensures read { IsTrue result → AreDigitsOf text.now bytes.new }
    ensures spelled { list_all is_lower_digit text.now ≡ true → IsTrue result }
{
    let mut greatest = 0;
    for place in 0..bytes.len() {
        let high = digit_value(text[2 * place]);
        let low = digit_value(text[2 * place + 1]);
        greatest = greatest.max(high).max(low);
        bytes[place] = high.wrapping_mul(16).wrapping_add(low);
    }
    greatest < NO_DIGIT
}

/// The same of a word of sixteen pairs or more, sixteen at a time. Those that are read last end with the word, so some of them may
/// have been read before.
fn read_many(text: &[u8], bytes: &mut [u8]) -> bool
    requires size { length text.now ≡ 2 * length bytes.old }
    requires many { LANES ≤ length bytes.old }
    ensures read { IsTrue result → AreDigitsOf text.now bytes.new }
    ensures spelled { list_all is_lower_digit text.now ≡ true → IsTrue result }
{
    let last = bytes.len() - LANES;
    let mut place: usize = 0;
    while place < last {
        if !read_block(text, bytes, place) {
            return false;
        }
        place += LANES;
    }
    read_block(text, bytes, last)
}

/// Reads the digits of a word in pairs, and answers whether all of them are digits in lower case. Nothing is known of the bytes
/// where some are not.
pub(crate) fn read_digits(text: &[u8], bytes: &mut [u8]) -> bool
    requires { length text.now ≡ 2 * length bytes.old }
    ensures read { IsTrue result → AreDigitsOf text.now bytes.new }
    ensures spelled { (spelled : List ℕ) → AreDigitsOf text.now spelled → IsTrue result }
{
    if bytes.len() < LANES {
        read_few(text, bytes)
    } else {
        read_many(text, bytes)
    }
}

/// The digits of values below sixteen.
fn digits_of(values: u8x16) -> u8x16
    requires { (k : ℕ) → k < 16 → slice_index values k < 16 }
    ensures { HasLanes result (λ k. slice_index lower_digits (slice_index values k)) }
{
    where_below(values, 10, more(values, b'0'), more(values, b'a' - 10))
}

/// The high four bits of each lane.
fn high_bits(lanes: u8x16) -> u8x16
    ensures { HasLanes result (λ k. slice_index lanes k / 16) }
{
    lanes >> u8x16::splat(4)
}

/// The low four bits of each lane.
fn low_bits(lanes: u8x16) -> u8x16
    ensures { HasLanes result (λ k. slice_index lanes k % 16) }
{
    lanes & u8x16::splat(15)
}

/// The lanes of both, one of each after another.
fn interleaved(high: u8x16, low: u8x16) -> [u8; 32]
    ensures { result ≡ map (λ j. slice_index (high ++ low) (j / 2 + 16 * (j % 2))) (range_with_len 0 32) }
{
    let both: u8x32 = high.shuffle(
        low,
        [
            0, 16, 1, 17, 2, 18, 3, 19, 4, 20, 5, 21, 6, 22, 7, 23, 8, 24, 9, 25, 10, 26, 11, 27,
            12, 28, 13, 29, 14, 30, 15, 31,
        ],
    );
    both.to_array()
}

/// Two digits for each of the first sixteen bytes.
pub(crate) fn block_digits(bytes: &[u8]) -> [u8; 32]
    requires { LANES ≤ length bytes.now }
    ensures { result ≡ encode_lower (take LANES bytes.now) }
{
    let block = load(bytes, 0);
    let high = digits_of(high_bits(block));
    let low = digits_of(low_bits(block));
    interleaved(high, low)
}
