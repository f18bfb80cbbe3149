// Numbers and bytes in words.
ghost use Rattle.std.specs.Prelude.{◌≡◌, ◌+◌, ◌-◌, ◌*◌, ◌<◌};
ghost use Rattle.text_words.specs.Numbers.{at_most, read_decimal, first_pairs, read_hex, readable};
ghost use Rattle.text_words.specs.Numbers as Numbers;
ghost use Rattle.text_words.specs.Text.{is_no_hex_digit, found};

pub use crate::bytes::BYTES;
use crate::bytes::Bytes;

// Why a word is no decimal number: a byte of it is no digit, or the number is above the largest.
#[derive(Clone, Copy, Debug, PartialEq, Eq)]
pub enum DecimalError {
    NotDecimal,
    Above(u16),
}

// The number of a word's digits, of which it reads no more than it takes to see that the number is too large.
fn number(word: &[u8], most: u16) -> Result<u16, DecimalError>
    ensures { result ≡ at_most most (Numbers.number word.now) }
{
    let mut n: u32 = 0;
    for digit in word {
        n = n * 10 + u32::from(digit.saturating_sub(b'0'));
        if n > u32::from(most) {
            return Err(DecimalError::Above(most));
        }
    }
    Ok(n as u16)
}

pub fn decimal(word: &[u8], most: u16) -> Result<u16, DecimalError>
    ensures { result ≡ read_decimal most word.now }
{
    if word.iter().all(u8::is_ascii_digit) {
        number(word, most)
    } else {
        Err(DecimalError::NotDecimal)
    }
}

// Why a word is no bytes in hex: a byte of it is no hex digit, or their number is odd.
#[derive(Clone, Copy, Debug, PartialEq, Eq)]
pub enum HexError {
    NotHex(u8),
    Odd,
}

// The number of a hex digit; 0 where it is none. A `match`, since `to_digit` gives a `u32` in an `Option`.
#[tactic(auto, using(rules::proofs::Choice::picks), unfolding(crate::specs::Numbers::nibble))]
fn nibble(byte: u8) -> u8
    ensures { (result ≡ Numbers.nibble byte) × (result < 16) }
{
    match byte {
        b'0'..=b'9' => byte - b'0',
        b'a'..=b'f' => byte - b'a' + 10,
        b'A'..=b'F' => byte - b'A' + 10,
        _ => 0,
    }
}

// The bytes of pairs of digits. Where it stands, so that they are made where they are used: each move of so many costs.
#[inline(always)]
pub fn pairs(word: &[u8]) -> Bytes
    ensures { result ≡ first_pairs word.now }
{
    let mut bytes = Bytes::new();
    let mut rest = word;
    while let [high, low, behind @ ..] = rest {
        bytes.push(nibble(*high) * 16 + nibble(*low));
        rest = behind;
    }
    bytes
}

// The first byte of a word that is no hex digit.
fn no_hex_digit(word: &[u8]) -> Option<u8>
    ensures { result ≡ found is_no_hex_digit word.now }
{
    word.iter().find(|byte| !byte.is_ascii_hexdigit()).copied()
}

// Whether a word is bytes in hex; `-` is none of them.
pub fn readable(word: &[u8]) -> Result<(), HexError>
    ensures { result ≡ readable word.now }
{
    if word == b"-".as_slice() {
        return Ok(());
    }
    if let Some(byte) = no_hex_digit(word) {
        return Err(HexError::NotHex(byte));
    }
    if word.len() % 2 != 0 {
        return Err(HexError::Odd);
    }
    Ok(())
}

// The bytes of a word.
#[tactic(auto, using(crate::proofs::Hex::reads, crate::proofs::Hex::refuses))]
pub fn hex(word: &[u8]) -> Result<Bytes, HexError>
    ensures { result ≡ read_hex word.now }
{
    readable(word)?;
    Ok(pairs(word))
}
