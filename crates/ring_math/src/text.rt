//! Identifiers as hexadecimal texts.

ghost use Rattle.std.specs.Prelude.{◌≡◌, Ok, Some, IsSome};
ghost use Rattle.ring_math.specs.Texts.{text_of, id_read, faulty_place};

use crate::id::Id;
use crate::limits::DIGITS;
use hex::FromHexError;

/// Why a text is no identifier.
#[derive(Clone, Copy, PartialEq, Eq, Debug)]
pub enum IdFault {
    /// There are not as many bytes as an identifier has digits.
    Length { found: usize },
    /// There are, and the first that is no hexadecimal digit stands here.
    Digit { place: usize },
}

/// The hexadecimal digits of an identifier, in lower case.
pub fn id_to_hex(id: Id) -> [u8; 32]
    ensures text { result ≡ text_of id }
    ensures back { id_read result ≡ Ok id }
{
    let mut text = [0; 32];
    let written = hex::encode_to_slice(id.0.to_be_bytes(), &mut text);
    prove!(written.is_ok());
    text
}

/// The identifier that hexadecimal digits spell, in either case. `Length` comes exactly where there are not [`DIGITS`] bytes,
/// and `Digit` exactly where there are and one is no digit, with the place of the first.
pub fn id_from_hex(text: &[u8]) -> Result<Id, IdFault>
    ensures { result ≡ id_read text.now }
{
    if text.len() != DIGITS as usize {
        return Err(IdFault::Length { found: text.len() });
    }
    let mut bytes = [0; 16];
    match hex::decode_to_slice(text, &mut bytes) {
        Ok(()) => Ok(Id(u128::from_be_bytes(bytes))),
        Err(fault) => Err(IdFault::Digit {
            place: place_of(fault),
        }),
    }
}

/// Where the byte stands that is no digit.
fn place_of(fault: FromHexError) -> usize
    requires { IsSome (faulty_place fault) }
    ensures { faulty_place fault ≡ Some result }
{
    match fault {
        FromHexError::InvalidHexCharacter { index, .. } => index,
        _ => unreachable!(),
    }
}
