//! Texts that grow at their end: words, numbers, identifiers, and bytes in hexadecimal. Each is written once, into one
//! buffer.
#![tactic(auto)]

ghost use Rattle.std.specs.Prelude.{◌≡◌, ◌<◌, ◌≤◌, ◌*◌, ◌++◌, [], decimal, drop, length, slice_index, take, OnOk};
ghost use Rattle.hex.specs.Hex.{encode_lower, lower_digits};
ghost use Rattle.ring_math.specs.Texts.{text_of};

use itoa::Buffer;
use ring_math::{Id, OutOfMemory, id_to_hex};
use std::alloc::Global;
use std::marker::Model;
use wire_msg::Frame;

/// A text, seen as its bytes.
#[derive(Drop)]
pub struct Text {
    bytes: Vec<u8>,
}

impl Model for Text {
    ghost use Rattle.std.specs.Prelude.{ℕ, List};

    ghost Value = { List ℕ };

    ghost view = { λ a. a.bytes.items };
}

impl Text {
    /// No byte yet. It takes no memory.
    pub fn new(alloc: Global) -> Text
        ensures { result ≡ [] }
    {
        Text {
            bytes: Vec::new(alloc),
        }
    }

    /// These bytes.
    pub fn put(&mut self, word: &[u8]) -> Result<(), OutOfMemory>
        ensures { OnOk result (self.new ≡ self.old ++ word.now) }
    {
        self.bytes.extend_from_slice(word)?;
        Ok(())
    }

    /// A number in decimal.
    pub fn number(&mut self, number: u64) -> Result<(), OutOfMemory>
        ensures { OnOk result (self.new ≡ self.old ++ decimal number) }
    {
        let mut digits = Buffer::new();
        self.put(digits.format(number).as_bytes())
    }

    /// A word and a number.
    pub fn number_after(&mut self, word: &[u8], number: u64) -> Result<(), OutOfMemory>
        ensures { OnOk result (self.new ≡ self.old ++ (word.now ++ decimal number)) }
    {
        self.put(word)?;
        self.number(number)
    }

    /// The 32 digits of an identifier.
    pub fn id(&mut self, id: Id) -> Result<(), OutOfMemory>
        ensures { OnOk result (self.new ≡ self.old ++ text_of id) }
    {
        self.put(&id_to_hex(id))
    }

    /// A word and an identifier.
    pub fn id_after(&mut self, word: &[u8], id: Id) -> Result<(), OutOfMemory>
        ensures { OnOk result (self.new ≡ self.old ++ (word.now ++ text_of id)) }
    {
        self.put(word)?;
        self.id(id)
    }

    /// Bytes in hexadecimal, in lower case.
    pub fn hex(&mut self, bytes: &[u8]) -> Result<(), OutOfMemory>
        ensures { OnOk result (self.new ≡ self.old ++ encode_lower bytes.now) }
    {
        let start = self.bytes.len();
        let room = bytes.len().checked_mul(2).ok_or(OutOfMemory)?;
        let end = start.checked_add(room).ok_or(OutOfMemory)?;
        self.bytes.resize(end, 0)?;
        put_digits(bytes, &mut self.bytes[start..]);
        Ok(())
    }

    /// The whole text. It takes no memory.
    pub fn into_frame(self) -> Frame
        ensures { result ≡ self }
    {
        Frame::from(self.bytes)
    }
}

/// The digit of a value, in lower case. It is computed and not looked up, so that many are made at once.
fn digit(value: u8) -> u8
    requires { value < 16 }
    ensures { result ≡ slice_index lower_digits value }
{
    if value < 10 {
        b'0' + value
    } else {
        b'a' - 10 + value
    }
}

/// How many bytes are written in hexadecimal together. Their digits fill a register of any processor that computes on vectors.
const BLOCK: usize = 8;

/// Two digits for each byte, the high four bits first.
fn put_digits(bytes: &[u8], digits: &mut [u8])
    requires { length digits.old ≡ 2 * length bytes.now }
    ensures { digits.new ≡ encode_lower bytes.now }
{
    let behind = put_blocks(bytes, digits);
    put_each(&bytes[behind..], &mut digits[2 * behind..]);
}

/// The digits of all whole blocks. The answer is where the bytes behind them begin.
fn put_blocks(bytes: &[u8], digits: &mut [u8]) -> usize
    requires { length digits.old ≡ 2 * length bytes.now }
    ensures within { result ≤ length bytes.now }
    ensures length { length digits.new ≡ length digits.old }
    ensures digits { take (2 * result) digits.new ++ encode_lower (drop result bytes.now) ≡ encode_lower bytes.now }
{
    let mut place = 0;
    while let Some(block) = bytes[place..].first_chunk::<BLOCK>() {
        let end = place + BLOCK;
        digits[2 * place..2 * end].copy_from_slice(&block_digits(block));
        place = end;
    }
    place
}

/// The digits of a block. Since it is known how many they are, they are all computed at once.
fn block_digits(block: &[u8; BLOCK]) -> [u8; 2 * BLOCK]
    ensures { result ≡ encode_lower block.now }
{
    let mut digits = [0; 2 * BLOCK];
    put_each(block, &mut digits);
    digits
}

/// The digits of one byte after another.
fn put_each(bytes: &[u8], digits: &mut [u8])
    requires { length digits.old ≡ 2 * length bytes.now }
    ensures { digits.new ≡ encode_lower bytes.now }
{
    for place in 0..bytes.len() {
        let byte = bytes[place];
        digits[2 * place] = digit(byte / 16);
        digits[2 * place + 1] = digit(byte % 16);
    }
}

#[cfg(test)]
mod tests;
