// Text as numbers of 32 bits.
ghost use Rattle.std.specs.Prelude.{◌≤◌, ◌<◌, ◌≡◌, Some, SomeIff};
ghost use Rattle.reading.specs.declared.numbers.NumberError.TheVariants.{TooLarge};
ghost use Rattle.reading.specs.Numbers.{digit_of, capped_of, some_digits, is_hex, read_of, message_of};

use std::error::Error;
use std::fmt;
use std::num::TryFromIntError;

// Why a text is no number of 32 bits.
#[derive(Clone, Copy, Debug, PartialEq, Eq)]
pub enum NumberError {
    // No digits, or one that is none.
    NoNumber,
    // Digits of a number that does not fit.
    TooLarge,
}

impl fmt::Display for NumberError {
    ghost output = { λ e. Some (message_of e) };

    fn fmt<W: fmt::Write>(&self, f: &mut fmt::Formatter<W>) -> fmt::Result {
        f.write_str(match self {
            NumberError::NoNumber => "no number; it is decimal, or hex after 0x",
            NumberError::TooLarge => "does not fit 32 bits",
        })
    }
}

impl Error for NumberError {}

impl From<TryFromIntError> for NumberError {
    ghost from_gives = { λ _ e. e ≡ TooLarge };

    fn from(_e: TryFromIntError) -> NumberError {
        NumberError::TooLarge
    }
}

// What a digit stands for.
#[tactic(auto, using(crate::proofs::DigitByDigit::same_digit))]
fn digit(c: u8, base: u32) -> Option<u32>
    requires { (2 ≤ base) × (base ≤ 16) }
    ensures { SomeIff result (digit_of c < base) (digit_of c) }
{
    char::from(c).to_digit(base)
}

// From 2^32 on every value is too large, and 2^32 stands for it, as in the definition `capped_of`.
#[tactic(auto, unfolding(crate::specs::Numbers::capped_of))]
fn capped(v: u64) -> u64
    ensures { (result ≡ capped_of v) × (result ≤ 4294967296) }
{
    v.min(1 << 32)
}

fn digits(text: &[u8], base: u32) -> Result<u32, NumberError>
    requires { (2 ≤ base) × (base ≤ 16) }
    ensures { result ≡ some_digits base text.now }
{
    if text.is_empty() {
        return Err(NumberError::NoNumber);
    }
    let mut v = 0;
    for c in text {
        let Some(d) = digit(*c, base) else {
            return Err(NumberError::NoNumber);
        };
        v = capped(v * u64::from(base) + u64::from(d));
    }
    Ok(u32::try_from(v)?)
}

fn is_hex(text: &[u8]) -> bool
    ensures { result ≡ is_hex text.now }
{
    text.starts_with(b"0x")
}

// Decimal, or hex after `0x`.
#[tactic(auto, unfolding(crate::specs::Numbers::read_of))]
pub fn read(text: &[u8]) -> Result<u32, NumberError>
    ensures { result ≡ read_of text.now }
{
    if is_hex(text) {
        digits(&text[2..], 16)
    } else {
        digits(text, 10)
    }
}
