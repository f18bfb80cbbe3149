// What a word gives, or why it cannot be read.
ghost use Rattle.std.specs.Prelude.{◌≡◌};
ghost use Rattle.text_lines.specs.Given.{no_decimal, no_hex, size_of, length_of, given_by, status_of};

use text_words::bytes::Bytes;
use text_words::numbers::{DecimalError, HexError, decimal, hex, pairs, readable};

// The largest packet size and buffer that can be read.
const LARGEST_SIZE: u16 = 65535;

const LARGEST_BUFFER: u16 = 2048;

// Why a word cannot be read: it is no decimal number, or one above the largest; a byte of it is no hex digit, or their number is odd; it is
// no single byte.
#[derive(Clone, Copy, Debug, PartialEq, Eq)]
pub enum Unread {
    NoDecimal,
    Above(u16),
    NoHexDigit(u8),
    OddDigits,
    NoStatus,
}

impl From<DecimalError> for Unread {
    ghost from_gives = { λ e why. why ≡ no_decimal e };

    fn from(e: DecimalError) -> Unread {
        match e {
            DecimalError::NotDecimal => Unread::NoDecimal,
            DecimalError::Above(most) => Unread::Above(most),
        }
    }
}

impl From<HexError> for Unread {
    ghost from_gives = { λ e why. why ≡ no_hex e };

    fn from(e: HexError) -> Unread {
        match e {
            HexError::NotHex(byte) => Unread::NoHexDigit(byte),
            HexError::Odd => Unread::OddDigits,
        }
    }
}

// A packet size.
#[tactic(auto, unfolding(crate::specs::Given::size_of))]
pub fn given_size(word: &[u8]) -> Result<u16, Unread>
    ensures { result ≡ size_of word.now }
{
    Ok(decimal(word, LARGEST_SIZE)?)
}

// A buffer's length, or none where the word is missing.
#[tactic(auto, using(rules::proofs::Choice::picks), unfolding(crate::specs::Given::length_of))]
pub fn given_length(word: &[u8]) -> Result<Option<u16>, Unread>
    ensures { result ≡ length_of word.now }
{
    if word.is_empty() {
        return Ok(None);
    }
    Ok(Some(decimal(word, LARGEST_BUFFER)?))
}

// Bytes. They are not had of `hex`, whose answer would be moved into this one, and this is inlined as `pairs` is.
#[tactic(auto, using(text_words::proofs::Hex::reads, text_words::proofs::Hex::refuses), unfolding(crate::specs::Given::given_by))]
#[inline(always)]
pub fn given_bytes(word: &[u8]) -> Result<Bytes, Unread>
    ensures { result ≡ given_by word.now }
{
    readable(word)?;
    Ok(pairs(word))
}

// One byte.
#[tactic(auto, using(rules::proofs::Choice::picks), unfolding(crate::specs::Given::status_of))]
pub fn given_status(word: &[u8]) -> Result<u8, Unread>
    ensures { result ≡ status_of word.now }
{
    let bytes = &hex(word);
    match bytes {
        Ok(bytes) => match bytes.as_slice() {
            [byte] => Ok(*byte),
            _ => Err(Unread::NoStatus),
        },
        Err(why) => Err(Unread::from(*why)),
    }
}
